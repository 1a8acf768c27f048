use std::marker::Model;
use text_base::Text;

#[derive(Clone, Copy, Debug, PartialEq, Eq)]
pub enum Align {
    Left,
    Right,
    /// The odd space goes to the right.
    Center,
}

#[derive(Debug, Drop)]
pub enum ReplacementPart {
    /// A text; of `{{` and `}}` a single brace.
    Text(Text),
    /// The value, filled with spaces up to the width in characters. `{}` has the width 0.
    Value { align: Align, width: u32 },
}

/// The text that takes the place of a value. Contracts see the list of its parts.
#[derive(Debug, Drop)]
pub struct Replacement {
    parts: Vec<ReplacementPart>,
}

impl Model for Replacement {
    ghost use Rattle.std.specs.Prelude.{List};
    ghost use Rattle.tpl_lang.specs.declared.replacement.ReplacementPart.{ReplacementPart};

    ghost Value = { List ReplacementPart };

    ghost view = { λ r. r.parts.items };
}

impl Replacement {
    ghost use Rattle.std.specs.Prelude.{◌≡◌};

    pub(crate) fn new(parts: Vec<ReplacementPart>) -> Replacement
        ensures { result ≡ parts.items }
    {
        Replacement { parts }
    }

    pub fn parts(&self) -> &[ReplacementPart]
        ensures { result.now ≡ self.now }
    {
        self.parts.as_slice()
    }
}
