ghost use Rattle.std.specs.Prelude.{◌≡◌, length};

use read_base::ReadError;

/// The kinds of fault that a reader tells apart. A brace and a step of 0 are out of place, but what stands behind them decides.
#[derive(Clone, Copy, Debug, PartialEq, Eq)]
pub enum TplKind {
    Syntax,
    /// A brace of a replacement that stands for nothing.
    Brace,
    /// A step of 0.
    Step,
    TypeLetter,
    Directive,
}

/// A fault at the front of what is left.
pub(crate) fn fault(kind: TplKind, text: &str) -> ReadError<TplKind>
    ensures { result ≡ ReadError.Fault kind (length text.now) }
{
    ReadError::Fault {
        kind,
        left: text.len(),
    }
}
