//! Removes what a job needed while its file was made.
ghost use Rattle.std.specs.Prelude.{◌≡◌, IsTrue, IfOk, map};
ghost use Rattle.folder_base.specs.Story.{IsWhole};
ghost use Rattle.folder_steps.specs.Blames.{Blames, BlamesMemory};
ghost use Rattle.keep_store.specs.Opening.{Looked};
ghost use Rattle.tool_chain.specs.Jobs.{job_of, is_output, is_output_of};
ghost use Rattle.component_store.specs.Tidy.{is_tidied};
ghost use Rattle.job_turn.specs.Clearing.{Clears, AreNamesApart, is_recorded, some_recorded, is_tidied_of};
ghost use Rattle.job_turn.specs.Making.{Answers};

use crate::end::{FaultAt, TurnFault, fault_at};
use component_store::Target;
use folder_base::{Folder, StoreFault};
use folder_steps::{drop_name, is_there};
use plan_record::{name_room, write_record};
use std::alloc::Global;
use text_base::Text;
use tool_chain::ToolJob;

/// Removes the output of a step, where it stands.
fn drop_output<F: Folder>(folder: &mut F, step: &ToolJob) -> Result<(), StoreFault>
    requires { IsTrue (F.world folder.old).tells → IsWhole (F.world folder.old) }
    ensures cleared { Clears (is_output (job_of step.now)) (F.world folder.old) (F.world folder.new) result }
    ensures blames { Blames (F.world folder.old) (F.world folder.new) result }
{
    let Some(output) = &step.output else {
        return Ok(());
    };
    drop_name(folder, output.as_str())?;
    Ok(())
}

/// Removes the outputs of steps that stand.
pub(crate) fn drop_outputs<F: Folder>(
    folder: &mut F,
    steps: &Vec<ToolJob>,
) -> Result<(), StoreFault>
    requires { IsTrue (F.world folder.old).tells → IsWhole (F.world folder.old) }
    ensures cleared { Clears (is_output_of (map job_of steps.now.items)) (F.world folder.old) (F.world folder.new) result }
    ensures blames { Blames (F.world folder.old) (F.world folder.new) result }
{
    for step in steps {
        drop_output(folder, step)?;
    }
    Ok(())
}

/// Whether the record of a component stands.
fn is_recorded<F: Folder>(
    alloc: Global,
    folder: &mut F,
    component: &str,
) -> Result<bool, StoreFault>
    requires { IsTrue (F.world folder.old).tells → IsWhole (F.world folder.old) }
    ensures looked { Looked (F.world folder.old) (F.world folder.new) }
    ensures blames { BlamesMemory (F.world folder.old) (F.world folder.new) result }
    ensures told { IsTrue (F.world folder.new).tells
        → IfOk result
        (λ recorded. recorded ≡ is_recorded (F.world folder.old).story.now.live component.now) }
{
    let Ok(mut record) = name_room(alloc, component) else {
        return Err(StoreFault::OutOfMemory);
    };
    write_record(&mut record, component);
    is_there(folder, record.as_str())
}

/// Whether the record of one of these components stands.
pub(crate) fn some_recorded<F: Folder>(
    alloc: Global,
    folder: &mut F,
    components: &[Text],
) -> Result<bool, StoreFault>
    requires { IsTrue (F.world folder.old).tells → IsWhole (F.world folder.old) }
    ensures looked { Looked (F.world folder.old) (F.world folder.new) }
    ensures blames { BlamesMemory (F.world folder.old) (F.world folder.new) result }
    ensures told { IsTrue (F.world folder.new).tells
        → IfOk result
        (λ recorded. recorded ≡ some_recorded (F.world folder.old).story.now.live components.now) }
{
    for component in components {
        if is_recorded(alloc, folder, component.as_str())? {
            return Ok(true);
        }
    }
    Ok(false)
}

/// Tidies a component.
fn tidy_one<F: Folder>(
    alloc: Global,
    folder: &mut F,
    component: &str,
    is_final: bool,
    keep: bool,
) -> Result<(), StoreFault>
    requires { IsTrue (F.world folder.old).tells → IsWhole (F.world folder.old) }
    ensures cleared { Clears (is_tidied component.now is_final keep (F.world folder.old).story.now.live)
        (F.world folder.old) (F.world folder.new) result }
    ensures blames { BlamesMemory (F.world folder.old) (F.world folder.new) result }
{
    // How many pieces there are is nothing to `tidy`.
    let Ok(target) = Target::new(alloc, component, 0, is_final) else {
        return Err(StoreFault::OutOfMemory);
    };
    target.tidy(alloc, folder, keep)
}

/// Tidies components, one after the other.
pub(crate) fn tidy_all<F: Folder>(
    alloc: Global,
    folder: &mut F,
    components: &[Text],
    is_final: bool,
    keep: bool,
) -> Result<(), TurnFault>
    requires whole { IsTrue (F.world folder.old).tells → IsWhole (F.world folder.old) }
    requires apart { AreNamesApart components.now }
    ensures cleared { Clears
        (is_tidied_of is_final keep (F.world folder.old).story.now.live components.now)
        (F.world folder.old) (F.world folder.new) result }
    ensures answers { Answers (F.world folder.old) (F.world folder.new) result }
{
    for (number, component) in components.iter().enumerate() {
        if let Err(fault) = tidy_one(alloc, folder, component.as_str(), is_final, keep) {
            return Err(fault_at(FaultAt::Component(number), fault));
        }
    }
    Ok(())
}
