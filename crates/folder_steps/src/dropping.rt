//! Removes files that may go.
ghost use Rattle.std.specs.Prelude.{◌≡◌, IsTrue, OnOk, IfOk, None, bytes_eq, is_some, if◌then◌else◌};
ghost use Rattle.folder_base.specs.Disk.{May, put, begins};
ghost use Rattle.folder_base.specs.Story.{Through, IsWhole, stands};
ghost use Rattle.keep_store.specs.Publish.{Stays};
ghost use Rattle.folder_steps.specs.Blames.{Blames, BlamesMemory};
ghost use Rattle.folder_steps.specs.Follow.{Follows, Thinner, IsLive};

use crate::asking::is_there;
use crate::refusal::store_fault;
use folder_base::{Folder, FolderCall, StoreFault};
use std::alloc::Global;

/// Removes a file that stands, without asking for it first.
pub fn drop_standing<F: Folder>(folder: &mut F, name: &str) -> Result<(), StoreFault>
    requires whole { IsTrue (F.world folder.old).tells → IsWhole (F.world folder.old) }
    requires stands { IsTrue (F.world folder.old).tells → stands (F.world folder.old) name.now }
    ensures kept { Stays (F.world folder.old) (F.world folder.new) }
    ensures blames { Blames (F.world folder.old) (F.world folder.new) result }
    ensures gone { IsTrue (F.world folder.new).tells
        → OnOk result
        (IsLive (put (F.world folder.old).story.now.live name.now None)
        (F.world folder.new).story.now) }
    ensures moments { IsTrue (F.world folder.new).tells
        → Through (F.world folder.old).story (F.world folder.new).story
        (Follows (May (F.world folder.old).story.now) (Thinner (bytes_eq name.now))) }
{
    match folder.remove(name) {
        Ok(()) => Ok(()),
        Err(fault) => Err(store_fault(FolderCall::Remove, fault)),
    }
}

/// Removes a file where it stands, and answers whether it stood.
pub fn drop_name<F: Folder>(folder: &mut F, name: &str) -> Result<bool, StoreFault>
    requires { IsTrue (F.world folder.old).tells → IsWhole (F.world folder.old) }
    ensures kept { Stays (F.world folder.old) (F.world folder.new) }
    ensures blames { Blames (F.world folder.old) (F.world folder.new) result }
    ensures stood { IsTrue (F.world folder.new).tells
        → IfOk result
        (λ stood. stood ≡ is_some ((F.world folder.old).story.now.live name.now)) }
    ensures gone { IsTrue (F.world folder.new).tells
        → OnOk result
        (IsLive (put (F.world folder.old).story.now.live name.now None)
        (F.world folder.new).story.now) }
    ensures moments { IsTrue (F.world folder.new).tells
        → Through (F.world folder.old).story (F.world folder.new).story
        (Follows (May (F.world folder.old).story.now) (Thinner (bytes_eq name.now))) }
{
    let stands = is_there(folder, name)?;
    if !stands {
        return Ok(false);
    }
    drop_standing(folder, name)?;
    Ok(true)
}

/// Removes each file whose name begins so. The folder is asked for its names once, and for none of
/// them again.
pub fn sweep<F: Folder>(alloc: Global, folder: &mut F, prefix: &str) -> Result<(), StoreFault>
    requires { IsTrue (F.world folder.old).tells → IsWhole (F.world folder.old) }
    ensures kept { Stays (F.world folder.old) (F.world folder.new) }
    ensures blames { BlamesMemory (F.world folder.old) (F.world folder.new) result }
    ensures gone { IsTrue (F.world folder.new).tells
        → OnOk result
        (IsLive (λ other. if begins prefix.now other then None
        else (F.world folder.old).story.now.live other)
        (F.world folder.new).story.now) }
    ensures moments { IsTrue (F.world folder.new).tells
        → Through (F.world folder.old).story (F.world folder.new).story
        (Follows (May (F.world folder.old).story.now) (Thinner (begins prefix.now))) }
{
    let names = match folder.names(alloc, prefix) {
        Ok(names) => names,
        Err(fault) => return Err(store_fault(FolderCall::Names, fault)),
    };
    for name in &names {
        drop_standing(folder, name.as_str())?;
    }
    Ok(())
}
