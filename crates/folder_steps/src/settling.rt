ghost use Rattle.std.specs.Prelude.{◌≡◌, IsTrue, OnOk};
ghost use Rattle.folder_base.specs.Disk.{May, settled};
ghost use Rattle.folder_base.specs.Story.{Through, IsWhole};
ghost use Rattle.keep_store.specs.Publish.{Stays};
ghost use Rattle.folder_steps.specs.Blames.{Blames};

use crate::refusal::store_fault;
use folder_base::{Folder, FolderCall, StoreFault};

/// Makes all name changes so far lasting. No crash then leaves what none could have left before.
pub fn settle<F: Folder>(folder: &mut F) -> Result<(), StoreFault>
    requires { IsTrue (F.world folder.old).tells → IsWhole (F.world folder.old) }
    ensures kept { Stays (F.world folder.old) (F.world folder.new) }
    ensures blames { Blames (F.world folder.old) (F.world folder.new) result }
    ensures done { IsTrue (F.world folder.new).tells
        → OnOk result ((F.world folder.new).story.now ≡ settled (F.world folder.old).story.now) }
    ensures moments { IsTrue (F.world folder.new).tells
        → Through (F.world folder.old).story (F.world folder.new).story
        (May (F.world folder.old).story.now) }
{
    match folder.settle() {
        Ok(()) => Ok(()),
        Err(fault) => Err(store_fault(FolderCall::Settle, fault)),
    }
}
