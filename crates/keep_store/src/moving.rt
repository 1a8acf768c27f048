//! A file that is made lasting and then given another name.
ghost use Rattle.std.specs.Prelude.{◌≡◌, ◌⊎◌, IsTrue, OnOk, IfErr};
ghost use Rattle.folder_base.specs.Disk.{May, synced, renamed};
ghost use Rattle.folder_base.specs.Story.{Through, is_own, stands};
ghost use Rattle.keep_store.specs.Lane.{IsRefusal};
ghost use Rattle.keep_store.specs.Publish.{Stays, IsMoving};

use crate::refusal::store_fault;
use folder_base::{Folder, FolderCall, StoreFault};

/// Makes a file's bytes lasting, and then gives it another name.
pub(crate) fn move_synced<F: Folder>(folder: &mut F, from: &str, to: &str) -> Result<(), StoreFault>
    requires from_own { IsTrue (F.world folder.old).tells → IsTrue (is_own (F.world folder.old) from.now) }
    requires to_own { IsTrue (F.world folder.old).tells → IsTrue (is_own (F.world folder.old) to.now) }
    requires stands { IsTrue (F.world folder.old).tells → stands (F.world folder.old) from.now }
    ensures kept { Stays (F.world folder.old) (F.world folder.new) }
    ensures refused { IfErr result (IsRefusal (F.world folder.old) (F.world folder.new)) }
    ensures done { IsTrue (F.world folder.new).tells
        → OnOk result ((F.world folder.new).story.now ≡ renamed from.now to.now (synced from.now (F.world folder.old).story.now)) }
    ensures moved { IsTrue (F.world folder.new).tells
        → IsMoving from.now to.now (F.world folder.old).story (F.world folder.new).story }
{
    match folder.sync(from) {
        Ok(()) => {}
        Err(fault) => return Err(store_fault(FolderCall::Sync, fault)),
    }
    match folder.rename(from, to) {
        Ok(()) => Ok(()),
        Err(fault) => Err(store_fault(FolderCall::Rename, fault)),
    }
}
