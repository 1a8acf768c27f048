use folder_base::StoreFault;
use std::alloc::{AllocError, AllocFailed};
use text_base::{FolderCall, OutOfMemory};

/// Why an archive is not read, or a line not added.
#[derive(Clone, Copy, Debug, PartialEq, Eq)]
pub enum ArchiveFault {
    /// This call of the folder failed.
    Folder { call: FolderCall },
    /// This line is the first that is not UTF-8. Lines count from 1.
    BadText { line: usize },
    /// Memory ran out.
    OutOfMemory,
}

impl From<OutOfMemory> for ArchiveFault {
    ghost use Rattle.std.specs.Prelude.{◌≡◌};
    ghost use Rattle.archive_store.specs.declared.archive_fault.ArchiveFault.TheVariants as fault;

    ghost from_gives = { λ _ e. e ≡ fault.OutOfMemory };

    fn from(_: OutOfMemory) -> Self {
        ArchiveFault::OutOfMemory
    }
}

impl From<AllocError> for ArchiveFault {
    ghost use Rattle.std.specs.Prelude.{◌≡◌};
    ghost use Rattle.archive_store.specs.declared.archive_fault.ArchiveFault.TheVariants as fault;

    ghost from_gives = { λ _ e. e ≡ fault.OutOfMemory };

    fn from(_: AllocError) -> Self {
        ArchiveFault::OutOfMemory
    }
}

impl<T: Drop> From<AllocFailed<T>> for ArchiveFault {
    ghost use Rattle.std.specs.Prelude.{◌≡◌};
    ghost use Rattle.archive_store.specs.declared.archive_fault.ArchiveFault.TheVariants as fault;

    ghost from_gives = { λ _ e. e ≡ fault.OutOfMemory };

    fn from(_: AllocFailed<T>) -> Self {
        ArchiveFault::OutOfMemory
    }
}

impl From<StoreFault> for ArchiveFault {
    ghost use Rattle.std.specs.Prelude.{◌≡◌};
    ghost use Rattle.archive_store.specs.Causes.{of_store};

    ghost from_gives = { λ f e. e ≡ of_store f };

    fn from(fault: StoreFault) -> Self {
        match fault {
            StoreFault::Folder { call } => ArchiveFault::Folder { call },
            StoreFault::OutOfMemory => ArchiveFault::OutOfMemory,
        }
    }
}
