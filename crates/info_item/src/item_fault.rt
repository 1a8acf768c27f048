use std::alloc::{AllocError, AllocFailed};
use text_base::OutOfMemory;
use thiserror::Error;

/// Why a tree is not read as items. Items and formats count from 0.
#[derive(Clone, Copy, Debug, PartialEq, Eq, Error)]
pub enum ItemFault {
    /// Entry `k` is no map.
    #[error("item {k} is no map")]
    NotItem { k: usize },
    /// Item `k` has no id.
    #[error("item {k} has no id")]
    NoId { k: usize },
    /// Item `k` has no formats.
    #[error("item {k} has no formats")]
    NoFormats { k: usize },
    /// Format `j` of item `k` is no map, has no id, or has that of an earlier one.
    #[error("item {k} has a bad format {j}")]
    FormatId { k: usize, j: usize },
    #[error("memory ran out")]
    OutOfMemory,
}

impl From<OutOfMemory> for ItemFault {
    ghost use Rattle.std.specs.Prelude.{◌≡◌};
    ghost use Rattle.info_item.specs.declared.item_fault.ItemFault.TheVariants as fault;

    ghost from_gives = { λ _ e. e ≡ fault.OutOfMemory };

    fn from(_: OutOfMemory) -> Self {
        ItemFault::OutOfMemory
    }
}

impl<T: Drop> From<AllocFailed<T>> for ItemFault {
    ghost use Rattle.std.specs.Prelude.{◌≡◌};
    ghost use Rattle.info_item.specs.declared.item_fault.ItemFault.TheVariants as fault;

    ghost from_gives = { λ _ e. e ≡ fault.OutOfMemory };

    fn from(_: AllocFailed<T>) -> Self {
        ItemFault::OutOfMemory
    }
}

impl From<AllocError> for ItemFault {
    ghost use Rattle.std.specs.Prelude.{◌≡◌};
    ghost use Rattle.info_item.specs.declared.item_fault.ItemFault.TheVariants as fault;

    ghost from_gives = { λ _ e. e ≡ fault.OutOfMemory };

    fn from(_: AllocError) -> Self {
        ItemFault::OutOfMemory
    }
}
