//! Calls of a folder that end in a fault of the store.
ghost use Rattle.std.specs.Prelude.{◌≡◌};
ghost use Rattle.keep_store.specs.Publish.{store_fault};

use folder_base::{FolderCall, StoreFault};
use text_base::FolderFault;

/// The fault of a call of the folder.
pub fn store_fault(call: FolderCall, fault: FolderFault) -> StoreFault
    ensures { result ≡ store_fault call fault }
{
    match fault {
        FolderFault::Failed => StoreFault::Folder { call },
        FolderFault::OutOfMemory => StoreFault::OutOfMemory,
    }
}
