//! Writes a new file under a name that is free.
ghost use Rattle.std.specs.Prelude.{◌≡◌, ◌++◌, [], ℕ, List, IsTrue, OnOk, None, bytes_eq};
ghost use Rattle.folder_base.specs.Disk.{Disk, May};
ghost use Rattle.folder_base.specs.Story.{Story, Through, IsWhole, stands};
ghost use Rattle.keep_store.specs.Publish.{Stays};
ghost use Rattle.folder_steps.specs.Blames.{Blames};
ghost use Rattle.folder_steps.specs.Follow.{Follows, Beside};
ghost use Rattle.folder_steps.specs.Make.{HasNew, Grows};

use crate::refusal::store_fault;
use folder_base::{Folder, FolderCall, StoreFault};

/// Makes an empty file under a name that is free.
pub fn make<F: Folder>(folder: &mut F, name: &str) -> Result<(), StoreFault>
    requires whole { IsTrue (F.world folder.old).tells → IsWhole (F.world folder.old) }
    requires free { IsTrue (F.world folder.old).tells
        → (F.world folder.old).story.now.live name.now ≡ None }
    ensures kept { Stays (F.world folder.old) (F.world folder.new) }
    ensures blames { Blames (F.world folder.old) (F.world folder.new) result }
    ensures made { IsTrue (F.world folder.new).tells
        → OnOk result
        (HasNew name.now [] (F.world folder.old).story.now (F.world folder.new).story.now) }
    ensures moments { IsTrue (F.world folder.new).tells
        → Through (F.world folder.old).story (F.world folder.new).story
        (Follows (May (F.world folder.old).story.now) (Beside (bytes_eq name.now))) }
{
    match folder.create(name) {
        Ok(()) => Ok(()),
        Err(fault) => Err(store_fault(FolderCall::Create, fault)),
    }
}

/// Puts bytes behind a file's end.
pub fn put_behind<F: Folder>(folder: &mut F, name: &str, bytes: &[u8]) -> Result<(), StoreFault>
    requires whole { IsTrue (F.world folder.old).tells → IsWhole (F.world folder.old) }
    requires stands { IsTrue (F.world folder.old).tells → stands (F.world folder.old) name.now }
    ensures kept { Stays (F.world folder.old) (F.world folder.new) }
    ensures blames { Blames (F.world folder.old) (F.world folder.new) result }
    ensures grown { IsTrue (F.world folder.new).tells
        → Grows name.now bytes.now (F.world folder.old).story (F.world folder.new).story }
    ensures put { IsTrue (F.world folder.new).tells
        → (start : Disk) (before : List ℕ)
        → HasNew name.now before start (F.world folder.old).story.now
        → OnOk result
        (HasNew name.now (before ++ bytes.now) start (F.world folder.new).story.now) }
{
    match folder.append(name, bytes) {
        Ok(()) => Ok(()),
        Err(fault) => Err(store_fault(FolderCall::Append, fault)),
    }
}
