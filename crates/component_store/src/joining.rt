//! Joins a component's pieces.
ghost use Rattle.std.specs.Prelude.{◌≡◌, ◌+◌, ◌<◌, ◌≤◌, ℕ, List, [], IsTrue, OnOk, None, false, bytes_eq, length, if◌then◌else◌};
ghost use Rattle.std.specs.String.{string_bytes, string_capacity};
ghost use Rattle.folder_base.specs.Disk.{Disk, May, begins};
ghost use Rattle.folder_base.specs.Story.{Through, IsWhole, stands};
ghost use Rattle.keep_store.specs.Publish.{Stays};
ghost use Rattle.plan_record.specs.Names.{joined_of, pieces_of};
ghost use Rattle.folder_steps.specs.Blames.{Blames};
ghost use Rattle.folder_steps.specs.Follow.{Follows, Thinner, IsLive};
ghost use Rattle.folder_steps.specs.Make.{HasNew};
ghost use Rattle.component_store.specs.Target.{component_of};
ghost use Rattle.component_store.specs.Assemble.{AllComplete, is_stem, HasJoined, PoursLoose, IsJoining, IsJoined};

use crate::target::Target;
use folder_base::{Folder, StoreFault};
use folder_steps::{drop_standing, make, pour, publish_new};
use plan_record::write_stem;

/// Puts the pieces, in order, behind the joined part.
fn pour_all<F: Folder>(
    target: &Target,
    folder: &mut F,
    stem: &mut String,
    buffer: &mut [u8],
) -> Result<(), StoreFault>
    requires whole { IsTrue (F.world folder.old).tells → IsWhole (F.world folder.old) }
    requires complete { IsTrue (F.world folder.old).tells
        → AllComplete (component_of target.now) target.now.count (F.world folder.old).story.now.live }
    requires stands { IsTrue (F.world folder.old).tells
        → stands (F.world folder.old) (joined_of (component_of target.now)) }
    requires room { length (component_of target.now) + 52 ≤ string_capacity stem.old }
    requires buffer_room { 0 < length buffer.old }
    ensures kept { Stays (F.world folder.old) (F.world folder.new) }
    ensures room { length (component_of target.now) + 52 ≤ string_capacity stem.new }
    ensures blames { Blames (F.world folder.old) (F.world folder.new) result }
    ensures stands { IsTrue (F.world folder.new).tells
        → stands (F.world folder.new) (joined_of (component_of target.now)) }
    ensures loose { IsTrue (F.world folder.new).tells
        → PoursLoose (joined_of (component_of target.now))
        (F.world folder.old).story (F.world folder.new).story }
    ensures poured { IsTrue (F.world folder.new).tells → (start : Disk)
        → HasNew (joined_of (component_of target.now)) [] start (F.world folder.old).story.now
        → OnOk result
        (HasJoined (component_of target.now) target.now.count start (F.world folder.new).story.now) }
{
    for piece in 0..target.count {
        write_stem(stem, target.name.as_str(), piece as u64);
        pour(folder, stem.as_str(), target.joined.as_str(), buffer)?;
    }
    Ok(())
}

/// Joins the pieces under the joined part's name, which is free, and publishes them as the component.
pub(crate) fn join<F: Folder>(
    target: &Target,
    folder: &mut F,
    stem: &mut String,
    buffer: &mut [u8],
) -> Result<(), StoreFault>
    requires whole { IsTrue (F.world folder.old).tells → IsWhole (F.world folder.old) }
    requires complete { IsTrue (F.world folder.old).tells
        → AllComplete (component_of target.now) target.now.count (F.world folder.old).story.now.live }
    requires free { IsTrue (F.world folder.old).tells
        → (F.world folder.old).story.now.live (joined_of (component_of target.now)) ≡ None }
    requires room { length (component_of target.now) + 52 ≤ string_capacity stem.old }
    requires buffer_room { 0 < length buffer.old }
    ensures kept { Stays (F.world folder.old) (F.world folder.new) }
    ensures room { length (component_of target.now) + 52 ≤ string_capacity stem.new }
    ensures blames { Blames (F.world folder.old) (F.world folder.new) result }
    ensures moments { IsTrue (F.world folder.new).tells
        → Through (F.world folder.old).story (F.world folder.new).story
        (IsJoining (component_of target.now) target.now.count (F.world folder.old).story.now) }
    ensures done { IsTrue (F.world folder.new).tells
        → OnOk result
        (IsJoined (component_of target.now) target.now.count
        (F.world folder.old).story.now (F.world folder.new).story.now) }
{
    make(folder, target.joined.as_str())?;
    pour_all(target, folder, stem, buffer)?;
    publish_new(folder, target.joined.as_str(), target.name.as_str())
}

/// Removes the pieces, each once.
pub(crate) fn drop_pieces<F: Folder>(
    target: &Target,
    folder: &mut F,
    stem: &mut String,
) -> Result<(), StoreFault>
    requires whole { IsTrue (F.world folder.old).tells → IsWhole (F.world folder.old) }
    requires complete { IsTrue (F.world folder.old).tells
        → AllComplete (component_of target.now) target.now.count (F.world folder.old).story.now.live }
    requires room { length (component_of target.now) + 52 ≤ string_capacity stem.old }
    ensures kept { Stays (F.world folder.old) (F.world folder.new) }
    ensures blames { Blames (F.world folder.old) (F.world folder.new) result }
    ensures gone { IsTrue (F.world folder.new).tells
        → OnOk result
        (IsLive (λ name. if is_stem (component_of target.now) target.now.count name then None
        else (F.world folder.old).story.now.live name)
        (F.world folder.new).story.now) }
    ensures moments { IsTrue (F.world folder.new).tells
        → Through (F.world folder.old).story (F.world folder.new).story
        (Follows (May (F.world folder.old).story.now)
        (Thinner (begins (pieces_of (component_of target.now))))) }
{
    for piece in 0..target.count {
        write_stem(stem, target.name.as_str(), piece as u64);
        drop_standing(folder, stem.as_str())?;
    }
    Ok(())
}
