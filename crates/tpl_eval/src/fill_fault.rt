use std::alloc::AllocError;
use text_base::OutOfMemory;
use thiserror::Error;

/// Why a template is not filled.
#[derive(Clone, Copy, Debug, PartialEq, Eq, Error)]
pub enum FillFault {
    /// The text, or the text of one field before it is cleaned, has more than 16,777,216 bytes.
    #[error("filled text is too long")]
    TooLong,
    #[error("memory ran out")]
    OutOfMemory,
}

impl From<OutOfMemory> for FillFault {
    ghost use Rattle.std.specs.Prelude.{◌≡◌};
    ghost use Rattle.tpl_eval.specs.declared.fill_fault.FillFault.TheVariants as fault;

    ghost from_gives = { λ _ e. e ≡ fault.OutOfMemory };

    fn from(_: OutOfMemory) -> Self {
        FillFault::OutOfMemory
    }
}

impl From<AllocError> for FillFault {
    ghost use Rattle.std.specs.Prelude.{◌≡◌};
    ghost use Rattle.tpl_eval.specs.declared.fill_fault.FillFault.TheVariants as fault;

    ghost from_gives = { λ _ e. e ≡ fault.OutOfMemory };

    fn from(_: AllocError) -> Self {
        FillFault::OutOfMemory
    }
}
