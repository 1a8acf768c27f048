//! Puts a component together from its pieces.
ghost use Rattle.std.specs.Prelude.{◌≡◌, ◌≢◌, IsTrue, OnOk};
ghost use Rattle.folder_base.specs.Story.{Through, IsWhole};
ghost use Rattle.keep_store.specs.Publish.{Stays};
ghost use Rattle.folder_steps.specs.Blames.{BlamesMemory};
ghost use Rattle.folder_steps.specs.Follow.{Always};
ghost use Rattle.component_store.specs.Component.{Web, ComponentSound, HasPieces};
ghost use Rattle.component_store.specs.Target.{component_of};
ghost use Rattle.component_store.specs.Assemble.{AllComplete, IsAssembled, IsAssembling, IsPutTogether};

use crate::joining::{drop_pieces, join};
use crate::target::Target;
use folder_base::{Folder, StoreFault};
use folder_steps::{drop_name, new_buffer, settle};
use keep_store::publish;
use plan_record::{name_room, write_stem};
use std::alloc::Global;

/// Gives the only piece the component's name.
fn assemble_one<F: Folder>(target: &Target, alloc: Global, folder: &mut F) -> Result<(), StoreFault>
    requires whole { IsTrue (F.world folder.old).tells → IsWhole (F.world folder.old) }
    requires one { target.now.count ≡ 1 }
    requires complete { IsTrue (F.world folder.old).tells
        → AllComplete (component_of target.now) target.now.count (F.world folder.old).story.now.live }
    ensures kept { Stays (F.world folder.old) (F.world folder.new) }
    ensures blames { BlamesMemory (F.world folder.old) (F.world folder.new) result }
    ensures moments { IsTrue (F.world folder.new).tells
        → Through (F.world folder.old).story (F.world folder.new).story
        (IsAssembling (component_of target.now) target.now.count (F.world folder.old).story.now) }
    ensures done { IsTrue (F.world folder.new).tells
        → OnOk result
        (IsPutTogether (component_of target.now) target.now.count
        (F.world folder.old).story.now (F.world folder.new).story.now) }
    ensures in_all { IsTrue (F.world folder.new).tells
        → OnOk result
        (Always (IsAssembled (component_of target.now) target.now.count (F.world folder.old).story.now)
        (F.world folder.new).story.now) }
{
    let Ok(mut stem) = name_room(alloc, target.name.as_str()) else {
        return Err(StoreFault::OutOfMemory);
    };
    write_stem(&mut stem, target.name.as_str(), 0);
    settle(folder)?;
    publish(folder, stem.as_str(), target.name.as_str())
}

/// Joins all pieces, gives them the component's name, and removes them.
fn assemble_all<F: Folder>(target: &Target, alloc: Global, folder: &mut F) -> Result<(), StoreFault>
    requires whole { IsTrue (F.world folder.old).tells → IsWhole (F.world folder.old) }
    requires not_one { target.now.count ≢ 1 }
    requires complete { IsTrue (F.world folder.old).tells
        → AllComplete (component_of target.now) target.now.count (F.world folder.old).story.now.live }
    ensures kept { Stays (F.world folder.old) (F.world folder.new) }
    ensures blames { BlamesMemory (F.world folder.old) (F.world folder.new) result }
    ensures moments { IsTrue (F.world folder.new).tells
        → Through (F.world folder.old).story (F.world folder.new).story
        (IsAssembling (component_of target.now) target.now.count (F.world folder.old).story.now) }
    ensures done { IsTrue (F.world folder.new).tells
        → OnOk result
        (IsPutTogether (component_of target.now) target.now.count
        (F.world folder.old).story.now (F.world folder.new).story.now) }
    ensures in_all { IsTrue (F.world folder.new).tells
        → OnOk result
        (Always (IsAssembled (component_of target.now) target.now.count (F.world folder.old).story.now)
        (F.world folder.new).story.now) }
{
    let (Ok(mut stem), Ok(mut buffer)) = (name_room(alloc, target.name.as_str()), new_buffer(alloc))
    else {
        return Err(StoreFault::OutOfMemory);
    };
    drop_name(folder, target.joined.as_str())?;
    settle(folder)?;
    join(target, folder, &mut stem, buffer.as_mut_slice())?;
    drop_pieces(target, folder, &mut stem)
}

impl Target {
    /// Makes the component from its pieces, which are complete. It has its name once it is whole, and
    /// loses its pieces after that.
    pub fn assemble<F: Folder>(&self, alloc: Global, folder: &mut F) -> Result<(), StoreFault>
        requires whole { IsTrue (F.world folder.old).tells → IsWhole (F.world folder.old) }
        requires complete { IsTrue (F.world folder.old).tells
            → AllComplete (component_of self.now) self.now.count (F.world folder.old).story.now.live }
        ensures kept { Stays (F.world folder.old) (F.world folder.new) }
        ensures blames { BlamesMemory (F.world folder.old) (F.world folder.new) result }
        ensures moments { IsTrue (F.world folder.new).tells
            → Through (F.world folder.old).story (F.world folder.new).story
            (IsAssembling (component_of self.now) self.now.count (F.world folder.old).story.now) }
        ensures sound { IsTrue (F.world folder.new).tells → (web : Web)
            → Always (HasPieces (component_of self.now) self.now.count) (F.world folder.old).story.now
            → Always (ComponentSound web (component_of self.now)) (F.world folder.old).story.now
            → Through (F.world folder.old).story (F.world folder.new).story
            (ComponentSound web (component_of self.now)) }
        ensures done { IsTrue (F.world folder.new).tells
            → OnOk result
            (IsPutTogether (component_of self.now) self.now.count
            (F.world folder.old).story.now (F.world folder.new).story.now) }
        ensures in_all { IsTrue (F.world folder.new).tells
            → OnOk result
            (Always (IsAssembled (component_of self.now) self.now.count (F.world folder.old).story.now)
            (F.world folder.new).story.now) }
    {
        if self.count == 1 {
            assemble_one(self, alloc, folder)
        } else {
            assemble_all(self, alloc, folder)
        }
    }
}
