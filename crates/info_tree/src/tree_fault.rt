use text_base::{NumFault, OutOfMemory};
use thiserror::Error;

/// Why a text is not read as a tree. Places count bytes from 0.
#[derive(Clone, Copy, Debug, PartialEq, Eq, Error)]
pub enum TreeFault {
    /// The first token that the grammar does not allow there, the first place where no token starts, or the length.
    #[error("bad JSON at byte {at}")]
    Syntax { at: usize },
    /// The bracket that opens level 129.
    #[error("too deep at byte {at}")]
    Depth { at: usize },
    /// The start of a number that is too long or out of range.
    #[error("bad number at byte {at}")]
    Number { at: usize, fault: NumFault },
    /// The first byte of the first sequence that is not UTF-8.
    #[error("not UTF-8 at byte {at}")]
    NotUtf8 { at: usize },
    /// More than 67,108,864 bytes.
    #[error("too long")]
    TooLong,
    #[error("memory ran out")]
    OutOfMemory,
}

impl From<OutOfMemory> for TreeFault {
    ghost use Rattle.std.specs.Prelude.{◌≡◌};
    ghost use Rattle.info_tree.specs.declared.tree_fault.TreeFault.TheVariants as fault;

    ghost from_gives = { λ _ e. e ≡ fault.OutOfMemory };

    fn from(_: OutOfMemory) -> Self {
        TreeFault::OutOfMemory
    }
}
