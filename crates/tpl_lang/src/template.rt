use crate::field::Field;
use std::marker::Model;
use text_base::Text;

/// A piece of a template.
#[derive(Debug, Drop)]
pub enum Part {
    /// Printed as it is. `%%` is one of a single `%`.
    Literal(Text),
    Field(Field),
}

/// A template: what stands between fields, and fields, in the order of the text. Contracts see it as the list of its parts.
#[derive(Debug, Drop)]
pub struct Template {
    parts: Vec<Part>,
}

impl Model for Template {
    ghost use Rattle.std.specs.Prelude.{List};
    ghost use Rattle.tpl_lang.specs.declared.template.Part.{Part};

    ghost Value = { List Part };

    ghost view = { λ t. t.parts.items };
}

impl Template {
    ghost use Rattle.std.specs.Prelude.{◌≡◌};

    pub(crate) fn new(parts: Vec<Part>) -> Template
        ensures { result ≡ parts.items }
    {
        Template { parts }
    }

    pub fn parts(&self) -> &[Part]
        ensures { result.now ≡ self.now }
    {
        self.parts.as_slice()
    }
}
