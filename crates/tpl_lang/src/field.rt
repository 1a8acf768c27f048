use crate::conv::Conv;
use crate::expr::Expr;
use crate::replacement::Replacement;
use std::marker::Model;
use text_base::Text;

/// A field. Its value is that of the first expression that has one; without one the default is printed.
#[derive(Debug, Drop)]
pub struct Field {
    exprs: Vec<Expr>,
    replacement: Option<Replacement>,
    default: Option<Text>,
    conv: Conv,
    is_bare: bool,
}

impl Model for Field {
    ghost use Rattle.tpl_lang.specs.Fields.{FieldView};

    ghost Value = { FieldView };

    ghost view = { λ f. record { exprs = f.exprs.items; replacement = f.replacement; default = f.default; conv = f.conv; is_bare = f.is_bare } };
}

impl Field {
    ghost use Rattle.std.specs.Prelude.{◌≡◌, IfSome, IfNone, Some, None};

    pub(crate) fn new(
        exprs: Vec<Expr>,
        replacement: Option<Replacement>,
        default: Option<Text>,
        conv: Conv,
        is_bare: bool,
    ) -> Field
        ensures { result ≡ record { exprs = exprs.items; replacement = replacement; default = default; conv = conv; is_bare = is_bare } }
    {
        Field {
            exprs,
            replacement,
            default,
            conv,
            is_bare,
        }
    }

    /// The expressions, of which there is one at least.
    pub fn exprs(&self) -> &[Expr]
        ensures { result.now ≡ self.now.exprs }
    {
        self.exprs.as_slice()
    }

    pub fn replacement(&self) -> Option<&Replacement>
        ensures some { IfSome result (λ r. self.now.replacement ≡ Some r.now) }
        ensures none { IfNone result (self.now.replacement ≡ None) }
    {
        self.replacement.as_ref()
    }

    pub fn default(&self) -> Option<&str>
        ensures some { IfSome result (λ d. self.now.default ≡ Some d.now) }
        ensures none { IfNone result (self.now.default ≡ None) }
    {
        match &self.default {
            Some(text) => Some(text.as_str()),
            None => None,
        }
    }

    pub fn conv(&self) -> Conv
        ensures { result ≡ self.now.conv }
    {
        self.conv
    }

    /// Whether the field is a word, `)` and `s` and nothing else.
    pub fn is_bare(&self) -> bool
        ensures { result ≡ self.now.is_bare }
    {
        self.is_bare
    }
}
