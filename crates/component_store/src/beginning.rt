//! Begins a component.
ghost use Rattle.std.specs.Prelude.{◌≡◌, IsTrue, OnOk, IfOk, None, true, bytes_eq, is_some};
ghost use Rattle.folder_base.specs.Disk.{May, put};
ghost use Rattle.folder_base.specs.Story.{Through, IsWhole};
ghost use Rattle.keep_store.specs.Publish.{Stays};
ghost use Rattle.keep_store.specs.Safe.{reads};
ghost use Rattle.folder_steps.specs.Blames.{Blames, BlamesMemory};
ghost use Rattle.folder_steps.specs.Follow.{Always, Follows, Thinner, IsLive};
ghost use Rattle.folder_steps.specs.Reading.{has_bytes};
ghost use Rattle.plan_record.specs.Names.{record_of, spare_of};
ghost use Rattle.component_store.specs.Component.{Web, ComponentSound};
ghost use Rattle.component_store.specs.Target.{component_of};
ghost use Rattle.component_store.specs.Tidy.{UnderRecord};
ghost use Rattle.component_store.specs.Begin.{goes_on, begun_as, begun_names, IsBeginning, IsStarting, IsStarted, InAll};

use crate::begun::Begun;
use crate::clearing::{Left, clear};
use crate::target::Target;
use folder_base::{Folder, StoreFault};
use folder_steps::{drop_name, holds, is_there, new_buffer, replace, settle};
use std::alloc::Global;

/// Removes the component's files but a final one, and writes the plan's record.
fn start<F: Folder>(
    target: &Target,
    alloc: Global,
    folder: &mut F,
    plan: &str,
) -> Result<(), StoreFault>
    requires { IsTrue (F.world folder.old).tells → IsWhole (F.world folder.old) }
    ensures kept { Stays (F.world folder.old) (F.world folder.new) }
    ensures blames { BlamesMemory (F.world folder.old) (F.world folder.new) result }
    ensures moments { IsTrue (F.world folder.new).tells
        → Through (F.world folder.old).story (F.world folder.new).story
        (IsStarting (component_of target.now) target.now.is_final plan.now
        (F.world folder.old).story.now) }
    ensures done { IsTrue (F.world folder.new).tells
        → OnOk result
        (IsStarted (component_of target.now) target.now.is_final plan.now
        (F.world folder.old).story.now (F.world folder.new).story.now) }
    ensures last { IsTrue (F.world folder.new).tells
        → Always (UnderRecord (component_of target.now) target.now.is_final)
        (F.world folder.old).story.now
        → Through (F.world folder.old).story (F.world folder.new).story
        (UnderRecord (component_of target.now) target.now.is_final) }
{
    let left = Left {
        component: target.is_final,
        its_record: false,
    };
    clear(target, alloc, folder, left)?;
    settle(folder)?;
    replace(
        folder,
        target.spare.as_str(),
        target.record_name.as_str(),
        plan.as_bytes(),
    )
}

/// Removes what stands under the spare name, and answers whether the record is the plan's.
fn is_recorded<F: Folder>(
    target: &Target,
    alloc: Global,
    folder: &mut F,
    plan: &str,
) -> Result<bool, StoreFault>
    requires { IsTrue (F.world folder.old).tells → IsWhole (F.world folder.old) }
    ensures kept { Stays (F.world folder.old) (F.world folder.new) }
    ensures blames { BlamesMemory (F.world folder.old) (F.world folder.new) result }
    ensures moments { IsTrue (F.world folder.new).tells
        → Through (F.world folder.old).story (F.world folder.new).story
        (Follows (May (F.world folder.old).story.now)
        (Thinner (bytes_eq (spare_of (component_of target.now))))) }
    ensures gone { IsTrue (F.world folder.new).tells
        → OnOk result
        (IsLive (put (F.world folder.old).story.now.live (spare_of (component_of target.now)) None)
        (F.world folder.new).story.now) }
    ensures same { IsTrue (F.world folder.new).tells
        → IfOk result
        (λ same. same
        ≡ has_bytes (reads (F.world folder.old).story.now (record_of (component_of target.now))) plan.now) }
{
    let Ok(mut buffer) = new_buffer(alloc) else {
        return Err(StoreFault::OutOfMemory);
    };
    drop_name(folder, target.spare.as_str())?;
    holds(
        folder,
        target.record_name.as_str(),
        plan.as_bytes(),
        buffer.as_mut_slice(),
    )
}

/// Removes what stands under the spare name, and answers whether the component goes on under its record.
fn goes_on<F: Folder>(
    target: &Target,
    alloc: Global,
    folder: &mut F,
    plan: &str,
    fresh: bool,
) -> Result<bool, StoreFault>
    requires { IsTrue (F.world folder.old).tells → IsWhole (F.world folder.old) }
    ensures kept { Stays (F.world folder.old) (F.world folder.new) }
    ensures blames { BlamesMemory (F.world folder.old) (F.world folder.new) result }
    ensures moments { IsTrue (F.world folder.new).tells
        → Through (F.world folder.old).story (F.world folder.new).story
        (Follows (May (F.world folder.old).story.now)
        (Thinner (bytes_eq (spare_of (component_of target.now))))) }
    ensures gone { IsTrue (F.world folder.new).tells
        → OnOk result
        (IsLive (put (F.world folder.old).story.now.live (spare_of (component_of target.now)) None)
        (F.world folder.new).story.now) }
    ensures told { IsTrue (F.world folder.new).tells
        → IfOk result
        (λ goes. goes
        ≡ goes_on (component_of target.now) plan.now fresh (F.world folder.old).story.now) }
{
    let same = is_recorded(target, alloc, folder, plan)?;
    if fresh {
        return Ok(false);
    }
    Ok(same)
}

/// Whether a component that goes on is complete.
fn as_it_stands<F: Folder>(target: &Target, folder: &mut F) -> Result<Begun, StoreFault>
    requires { IsTrue (F.world folder.old).tells → IsWhole (F.world folder.old) }
    ensures kept { Stays (F.world folder.old) (F.world folder.new) }
    ensures blames { Blames (F.world folder.old) (F.world folder.new) result }
    ensures same { IsTrue (F.world folder.new).tells
        → (F.world folder.new).story ≡ (F.world folder.old).story }
    ensures answer { IsTrue (F.world folder.new).tells
        → IfOk result
        (λ begun. begun ≡ begun_as true
        (is_some ((F.world folder.old).story.now.live (component_of target.now)))) }
{
    if is_there(folder, target.name.as_str())? {
        Ok(Begun::Complete)
    } else {
        Ok(Begun::Open)
    }
}

impl Target {
    /// Begins the component with the record of its plan. Under an equal record it goes on, unless it is
    /// to begin `fresh`; else all its files are removed, but a final component, and the record is written.
    pub fn begin<F: Folder>(
        &self,
        alloc: Global,
        folder: &mut F,
        plan: &str,
        fresh: bool,
    ) -> Result<Begun, StoreFault>
        requires { IsTrue (F.world folder.old).tells → IsWhole (F.world folder.old) }
        ensures kept { Stays (F.world folder.old) (F.world folder.new) }
        ensures blames { BlamesMemory (F.world folder.old) (F.world folder.new) result }
        ensures moments { IsTrue (F.world folder.new).tells
            → Through (F.world folder.old).story (F.world folder.new).story
            (IsBeginning (component_of self.now) self.now.is_final plan.now
            (goes_on (component_of self.now) plan.now fresh (F.world folder.old).story.now)
            (F.world folder.old).story.now) }
        ensures sound { IsTrue (F.world folder.new).tells → (web : Web)
            → (self.now.is_final ≡ true
            → Always (λ image. image (component_of self.now) ≡ None) (F.world folder.old).story.now)
            → Always (ComponentSound web (component_of self.now)) (F.world folder.old).story.now
            → Through (F.world folder.old).story (F.world folder.new).story
            (ComponentSound web (component_of self.now)) }
        ensures last { IsTrue (F.world folder.new).tells
            → Always (UnderRecord (component_of self.now) self.now.is_final)
            (F.world folder.old).story.now
            → Through (F.world folder.old).story (F.world folder.new).story
            (UnderRecord (component_of self.now) self.now.is_final) }
        ensures answer { IsTrue (F.world folder.new).tells
            → IfOk result
            (λ begun. begun ≡ begun_as
            (goes_on (component_of self.now) plan.now fresh (F.world folder.old).story.now)
            (is_some ((F.world folder.old).story.now.live (component_of self.now)))) }
        ensures live { IsTrue (F.world folder.new).tells
            → OnOk result
            (IsLive (begun_names (component_of self.now) self.now.is_final plan.now
            (goes_on (component_of self.now) plan.now fresh (F.world folder.old).story.now)
            (F.world folder.old).story.now.live)
            (F.world folder.new).story.now) }
        ensures in_all { IsTrue (F.world folder.new).tells
            → IfOk result
            (InAll (component_of self.now) plan.now
            (goes_on (component_of self.now) plan.now fresh (F.world folder.old).story.now)
            (F.world folder.old).story.now (F.world folder.new).story.now) }
    {
        let goes = goes_on(self, alloc, folder, plan, fresh)?;
        if goes {
            return as_it_stands(self, folder);
        }
        start(self, alloc, folder, plan)?;
        Ok(Begun::Open)
    }
}
