ghost use Rattle.std.specs.Prelude.{◌≡◌, IsTrue, OnOk, IfErr};
ghost use Rattle.text_base.specs.Causes.{Rose};
ghost use Rattle.folder_base.specs.Disk.{synced, renamed, settled};
ghost use Rattle.folder_base.specs.Story.{Through, IsWhole, stands};
ghost use Rattle.keep_store.specs.Publish.{IsBeforeOrMoved, IsCalm, MayRefuse, Stays};

use crate::refusal::store_fault;
use folder_base::{Folder, FolderCall, StoreFault};

/// Gives a file another name, in place of a file that has it, with all its bytes and so that no crash
/// undoes it. A crash in the middle leaves the new name as it was or with the whole file.
pub fn publish<F: Folder>(folder: &mut F, from: &str, to: &str) -> Result<(), StoreFault>
    requires { IsTrue (F.world folder.old).tells → IsWhole (F.world folder.old) }
    ensures kept { Stays (F.world folder.old) (F.world folder.new) }
    ensures refused { IfErr result (MayRefuse (F.world folder.old) (F.world folder.new)) }
    ensures calm { IsCalm (F.world folder.old) (F.world folder.new) result }
    ensures steady { IsTrue (F.world folder.old).steady → IsTrue (F.world folder.old).tells
        → stands (F.world folder.old) from.now
        → IfErr result (λ fault. fault ≡ StoreFault.OutOfMemory) }
    ensures done { IsTrue (F.world folder.new).tells
        → OnOk result
        ((F.world folder.new).story.now ≡ settled
        (renamed from.now to.now (synced from.now (F.world folder.old).story.now))) }
    ensures any_moment { IsTrue (F.world folder.new).tells
        → Through (F.world folder.old).story (F.world folder.new).story
        (IsBeforeOrMoved from.now to.now (F.world folder.old).story.now) }
{
    match folder.sync(from) {
        Ok(()) => {}
        Err(fault) => return Err(store_fault(FolderCall::Sync, fault)),
    }
    match folder.rename(from, to) {
        Ok(()) => {}
        Err(fault) => return Err(store_fault(FolderCall::Rename, fault)),
    }
    match folder.settle() {
        Ok(()) => Ok(()),
        Err(fault) => Err(store_fault(FolderCall::Settle, fault)),
    }
}
