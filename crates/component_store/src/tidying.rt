//! Removes what a component needed while it was fetched.
ghost use Rattle.std.specs.Prelude.{◌≡◌, IsTrue, IfOk, OnOk, None, ◌&&◌, ◌||◌, is_some, if◌then◌else◌};
ghost use Rattle.folder_base.specs.Disk.{May};
ghost use Rattle.folder_base.specs.Story.{Through, IsWhole};
ghost use Rattle.keep_store.specs.Opening.{Looked};
ghost use Rattle.keep_store.specs.Publish.{Stays};
ghost use Rattle.folder_steps.specs.Blames.{Blames, BlamesMemory};
ghost use Rattle.folder_steps.specs.Follow.{Always, Follows, Thinner, IsLive};
ghost use Rattle.component_store.specs.Component.{Web, ComponentSound};
ghost use Rattle.component_store.specs.Target.{component_of};
ghost use Rattle.component_store.specs.Tidy.{is_tidied, UnderRecord};

use crate::clearing::{Left, clear};
use crate::target::Target;
use folder_base::{Folder, StoreFault};
use folder_steps::is_there;
use std::alloc::Global;

/// Whether the component stays.
fn component_stays(target: &Target, keep: bool) -> bool
    ensures { result ≡ (target.now.is_final || keep) }
{
    target.is_final || keep
}

/// Whether a component that is to be kept stands, and so keeps its record.
fn keeps_record<F: Folder>(target: &Target, folder: &mut F, keep: bool) -> Result<bool, StoreFault>
    requires { IsTrue (F.world folder.old).tells → IsWhole (F.world folder.old) }
    ensures looked { Looked (F.world folder.old) (F.world folder.new) }
    ensures blames { Blames (F.world folder.old) (F.world folder.new) result }
    ensures told { IsTrue (F.world folder.new).tells
        → IfOk result
        (λ keeps. keeps
        ≡ (keep && is_some ((F.world folder.old).story.now.live (component_of target.now)))) }
{
    if !keep {
        return Ok(false);
    }
    is_there(folder, target.name.as_str())
}

impl Target {
    /// Removes what the component needed, where its record stands: all files beside it, and the
    /// component unless it is final or to be kept. A kept component that stands keeps its record.
    pub fn tidy<F: Folder>(
        &self,
        alloc: Global,
        folder: &mut F,
        keep: bool,
    ) -> Result<(), StoreFault>
        requires { IsTrue (F.world folder.old).tells → IsWhole (F.world folder.old) }
        ensures kept { Stays (F.world folder.old) (F.world folder.new) }
        ensures blames { BlamesMemory (F.world folder.old) (F.world folder.new) result }
        ensures moments { IsTrue (F.world folder.new).tells
            → Through (F.world folder.old).story (F.world folder.new).story
            (Follows (May (F.world folder.old).story.now)
            (Thinner (is_tidied (component_of self.now) self.now.is_final keep
            (F.world folder.old).story.now.live))) }
        ensures sound { IsTrue (F.world folder.new).tells → (web : Web)
            → Always (ComponentSound web (component_of self.now)) (F.world folder.old).story.now
            → Through (F.world folder.old).story (F.world folder.new).story
            (ComponentSound web (component_of self.now)) }
        ensures last { IsTrue (F.world folder.new).tells
            → Always (UnderRecord (component_of self.now) (self.now.is_final || keep))
            (F.world folder.old).story.now
            → Through (F.world folder.old).story (F.world folder.new).story
            (UnderRecord (component_of self.now) (self.now.is_final || keep)) }
        ensures live { IsTrue (F.world folder.new).tells
            → OnOk result
            (IsLive (λ name. if is_tidied (component_of self.now) self.now.is_final keep
            (F.world folder.old).story.now.live name then None
            else (F.world folder.old).story.now.live name)
            (F.world folder.new).story.now) }
    {
        let recorded = is_there(folder, self.record_name.as_str())?;
        if !recorded {
            return Ok(());
        }
        let its_record = keeps_record(self, folder, keep)?;
        let left = Left {
            component: component_stays(self, keep),
            its_record,
        };
        clear(self, alloc, folder, left)
    }
}
