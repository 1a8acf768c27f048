use std::alloc::{AllocError, AllocFailed};
use text_base::OutOfMemory;
use thiserror::Error;

/// Why no choices are answered.
#[derive(Clone, Copy, Debug, PartialEq, Eq, Error)]
pub enum ChooseFault {
    /// A part of the selector has more than 10,000 choices.
    #[error("too many choices")]
    TooMany,
    #[error("memory ran out")]
    OutOfMemory,
}

impl From<OutOfMemory> for ChooseFault {
    ghost use Rattle.std.specs.Prelude.{◌≡◌};
    ghost use Rattle.sel_eval.specs.declared.choose_fault.ChooseFault.TheVariants as fault;

    ghost from_gives = { λ _ e. e ≡ fault.OutOfMemory };

    fn from(_: OutOfMemory) -> Self {
        ChooseFault::OutOfMemory
    }
}

impl From<AllocError> for ChooseFault {
    ghost use Rattle.std.specs.Prelude.{◌≡◌};
    ghost use Rattle.sel_eval.specs.declared.choose_fault.ChooseFault.TheVariants as fault;

    ghost from_gives = { λ _ e. e ≡ fault.OutOfMemory };

    fn from(_: AllocError) -> Self {
        ChooseFault::OutOfMemory
    }
}

impl<T: Drop> From<AllocFailed<T>> for ChooseFault {
    ghost use Rattle.std.specs.Prelude.{◌≡◌};
    ghost use Rattle.sel_eval.specs.declared.choose_fault.ChooseFault.TheVariants as fault;

    ghost from_gives = { λ _ e. e ≡ fault.OutOfMemory };

    fn from(_: AllocFailed<T>) -> Self {
        ChooseFault::OutOfMemory
    }
}
