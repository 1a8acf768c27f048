use std::alloc::{AllocError, AllocFailed};
use text_base::OutOfMemory;

/// Why a reader gives up. A fault has the number of bytes from its place on: the reader sees what is left, and not where it stands.
#[derive(Clone, Copy, Debug, PartialEq, Eq)]
pub enum ReadError<K> {
    OutOfMemory,
    Fault { kind: K, left: usize },
}

impl<K> From<AllocError> for ReadError<K> {
    ghost use Rattle.std.specs.Prelude.{◌≡◌};
    ghost use Rattle.read_base.specs.declared.read_error.ReadError.TheVariants as errors;

    ghost from_gives = { λ _ e. e ≡ errors.OutOfMemory };

    fn from(_: AllocError) -> Self {
        ReadError::OutOfMemory
    }
}

impl<K, T: Drop> From<AllocFailed<T>> for ReadError<K> {
    ghost use Rattle.std.specs.Prelude.{◌≡◌};
    ghost use Rattle.read_base.specs.declared.read_error.ReadError.TheVariants as errors;

    ghost from_gives = { λ _ e. e ≡ errors.OutOfMemory };

    fn from(_: AllocFailed<T>) -> Self {
        ReadError::OutOfMemory
    }
}

impl<K> From<OutOfMemory> for ReadError<K> {
    ghost use Rattle.std.specs.Prelude.{◌≡◌};
    ghost use Rattle.read_base.specs.declared.read_error.ReadError.TheVariants as errors;

    ghost from_gives = { λ _ e. e ≡ errors.OutOfMemory };

    fn from(_: OutOfMemory) -> Self {
        ReadError::OutOfMemory
    }
}
