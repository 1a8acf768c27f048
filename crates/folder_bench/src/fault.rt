use folder_base::StoreFault;
use keep_store::LaneRefused;
use std::alloc::{AllocError, AllocFailed};
use std::io::{self, ErrorKind};
use text_base::FolderFault;

/// Why the work was not done.
#[derive(Clone, Copy)]
pub enum Fault {
    /// The words ask for nothing that this program does.
    Words,
    /// A call of the folder failed, or of a lane over it.
    Folder,
    /// A call of std's files failed.
    System,
    /// Memory ran out.
    OutOfMemory,
}

impl Fault {
    /// What is printed of it.
    pub fn text(self) -> &'static str {
        match self {
            Fault::Words => "the words are: append|open|finish folder|plain FOLDER COUNT",
            Fault::Folder => "a call of the folder failed",
            Fault::System => "a call of the system failed",
            Fault::OutOfMemory => "memory ran out",
        }
    }
}

impl From<AllocError> for Fault {
    fn from(_: AllocError) -> Self {
        Fault::OutOfMemory
    }
}

impl<T: Drop> From<AllocFailed<T>> for Fault {
    fn from(_: AllocFailed<T>) -> Self {
        Fault::OutOfMemory
    }
}

impl From<FolderFault> for Fault {
    fn from(fault: FolderFault) -> Self {
        match fault {
            FolderFault::Failed => Fault::Folder,
            FolderFault::OutOfMemory => Fault::OutOfMemory,
        }
    }
}

impl From<StoreFault> for Fault {
    fn from(fault: StoreFault) -> Self {
        match fault {
            StoreFault::Folder { .. } => Fault::Folder,
            StoreFault::OutOfMemory => Fault::OutOfMemory,
        }
    }
}

impl<F: Drop> From<LaneRefused<F>> for Fault {
    fn from(refused: LaneRefused<F>) -> Self {
        Fault::from(refused.fault)
    }
}

impl From<io::Error> for Fault {
    fn from(fault: io::Error) -> Self {
        match fault.kind() {
            ErrorKind::OutOfMemory => Fault::OutOfMemory,
            _ => Fault::System,
        }
    }
}
