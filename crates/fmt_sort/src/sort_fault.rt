use std::alloc::AllocFailed;
use text_base::OutOfMemory;
use thiserror::Error;

/// Why sort words are not read. Pieces count from 0 over all words, in the order given.
#[derive(Clone, Copy, Debug, PartialEq, Eq, Error)]
pub enum SortFault {
    /// The field of a piece is unknown or empty.
    #[error("sort field {piece} is unknown")]
    Field { piece: usize },
    /// The limit of a piece is refused.
    #[error("sort field {piece} has a bad limit")]
    Limit { piece: usize },
    #[error("memory ran out")]
    OutOfMemory,
}

impl From<OutOfMemory> for SortFault {
    ghost use Rattle.std.specs.Prelude.{◌≡◌};
    ghost use Rattle.fmt_sort.specs.declared.sort_fault.SortFault.TheVariants as fault;

    ghost from_gives = { λ _ e. e ≡ fault.OutOfMemory };

    fn from(_: OutOfMemory) -> Self {
        SortFault::OutOfMemory
    }
}

impl<T: Drop> From<AllocFailed<T>> for SortFault {
    ghost use Rattle.std.specs.Prelude.{◌≡◌};
    ghost use Rattle.fmt_sort.specs.declared.sort_fault.SortFault.TheVariants as fault;

    ghost from_gives = { λ _ e. e ≡ fault.OutOfMemory };

    fn from(_: AllocFailed<T>) -> Self {
        SortFault::OutOfMemory
    }
}
