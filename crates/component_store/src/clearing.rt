//! Removes a component's files.
ghost use Rattle.std.specs.Prelude.{◌≡◌, IsTrue, OnOk, None, not, ◌&&◌, bytes_eq, if◌then◌else◌};
ghost use Rattle.folder_base.specs.Disk.{May};
ghost use Rattle.folder_base.specs.Story.{Through, IsWhole};
ghost use Rattle.keep_store.specs.Publish.{Stays};
ghost use Rattle.folder_steps.specs.Blames.{Blames, BlamesMemory};
ghost use Rattle.folder_steps.specs.Follow.{Always, Follows, Thinner, IsLive};
ghost use Rattle.component_store.specs.Target.{component_of};
ghost use Rattle.component_store.specs.Tidy.{is_cleared, UnderRecord, GoesBehind};

use crate::target::Target;
use folder_base::{Folder, StoreFault};
use folder_steps::{drop_name, settle, sweep};
use std::alloc::Global;

/// What stays of a component's files where they are removed.
#[derive(Clone, Copy)]
pub(crate) struct Left {
    pub(crate) component: bool,
    pub(crate) its_record: bool,
}

/// Removes a file where it stands and does not stay.
fn drop_unless<F: Folder>(folder: &mut F, name: &str, stays: bool) -> Result<(), StoreFault>
    requires { IsTrue (F.world folder.old).tells → IsWhole (F.world folder.old) }
    ensures kept { Stays (F.world folder.old) (F.world folder.new) }
    ensures blames { Blames (F.world folder.old) (F.world folder.new) result }
    ensures moments { IsTrue (F.world folder.new).tells
        → Through (F.world folder.old).story (F.world folder.new).story
        (Follows (May (F.world folder.old).story.now)
        (Thinner (λ other. not stays && bytes_eq name.now other))) }
    ensures gone { IsTrue (F.world folder.new).tells
        → OnOk result
        (IsLive (λ other. if not stays && bytes_eq name.now other then None
        else (F.world folder.old).story.now.live other)
        (F.world folder.new).story.now) }
{
    if !stays {
        drop_name(folder, name)?;
    }
    Ok(())
}

/// Removes the record where it does not stay, once what was removed before is gone for good.
fn drop_record<F: Folder>(folder: &mut F, name: &str, stays: bool) -> Result<(), StoreFault>
    requires { IsTrue (F.world folder.old).tells → IsWhole (F.world folder.old) }
    ensures kept { Stays (F.world folder.old) (F.world folder.new) }
    ensures blames { Blames (F.world folder.old) (F.world folder.new) result }
    ensures moments { IsTrue (F.world folder.new).tells
        → Through (F.world folder.old).story (F.world folder.new).story
        (Follows (May (F.world folder.old).story.now)
        (Thinner (λ other. not stays && bytes_eq name.now other))) }
    ensures behind { IsTrue (F.world folder.new).tells
        → Through (F.world folder.old).story (F.world folder.new).story
        (GoesBehind name.now (F.world folder.old).story.now) }
    ensures gone { IsTrue (F.world folder.new).tells
        → OnOk result
        (IsLive (λ other. if not stays && bytes_eq name.now other then None
        else (F.world folder.old).story.now.live other)
        (F.world folder.new).story.now) }
{
    if stays {
        return Ok(());
    }
    settle(folder)?;
    drop_name(folder, name)?;
    Ok(())
}

/// Removes all of a component's files but those that stay, the record last.
pub(crate) fn clear<F: Folder>(
    target: &Target,
    alloc: Global,
    folder: &mut F,
    left: Left,
) -> Result<(), StoreFault>
    requires { IsTrue (F.world folder.old).tells → IsWhole (F.world folder.old) }
    ensures kept { Stays (F.world folder.old) (F.world folder.new) }
    ensures blames { BlamesMemory (F.world folder.old) (F.world folder.new) result }
    ensures moments { IsTrue (F.world folder.new).tells
        → Through (F.world folder.old).story (F.world folder.new).story
        (Follows (May (F.world folder.old).story.now)
        (Thinner (is_cleared (component_of target.now) left.component left.its_record))) }
    ensures gone { IsTrue (F.world folder.new).tells
        → OnOk result
        (IsLive (λ other. if is_cleared (component_of target.now) left.component left.its_record other then None
        else (F.world folder.old).story.now.live other)
        (F.world folder.new).story.now) }
    ensures last { IsTrue (F.world folder.new).tells
        → Always (UnderRecord (component_of target.now) left.component)
        (F.world folder.old).story.now
        → Through (F.world folder.old).story (F.world folder.new).story
        (UnderRecord (component_of target.now) left.component) }
{
    drop_name(folder, target.spare.as_str())?;
    sweep(alloc, folder, target.pieces.as_str())?;
    drop_name(folder, target.joined.as_str())?;
    drop_unless(folder, target.name.as_str(), left.component)?;
    drop_record(folder, target.record_name.as_str(), left.its_record)
}
