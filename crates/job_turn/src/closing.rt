//! Makes a job's file of its components, and removes what it needed.
ghost use Rattle.std.specs.Prelude.{◌≡◌, IsTrue, All, None, map};
ghost use Rattle.folder_base.specs.Story.{IsWhole};
ghost use Rattle.tool_chain.specs.Jobs.{OutputsApart};
ghost use Rattle.job_turn.specs.Making.{Cleared, Closes, Completes, steps_in, execs_in, IsFit};

use crate::clearing::{drop_outputs, tidy_all};
use crate::end::{FaultAt, Stop, TurnFault, cleared_answer, fault_at};
use crate::frame::Frame;
use crate::steps::{finish, run_execs};
use folder_base::Folder;
use std::alloc::Global;
use tool_chain::Tools;

/// Removes the outputs of a job's steps, and tidies its components.
pub(crate) fn clear<F: Folder>(
    alloc: Global,
    folder: &mut F,
    frame: &Frame,
) -> Result<(), TurnFault>
    requires whole { IsTrue (F.world folder.old).tells → IsWhole (F.world folder.old) }
    requires fit { IsFit frame.now }
    ensures { Cleared frame.now (F.world folder.old) (F.world folder.new) result }
{
    if let Err(fault) = drop_outputs(folder, &frame.steps) {
        return Err(fault_at(FaultAt::Final, fault));
    }
    let is_final = frame.steps.is_empty();
    tidy_all(alloc, folder, &frame.components, is_final, frame.keep)
}

/// Runs the commands for a job's file, and removes what it needed.
fn close<F: Folder, T: Tools<F>>(
    alloc: Global,
    tools: &mut T,
    folder: &mut F,
    frame: &Frame,
) -> Result<(), Stop>
    requires whole { IsTrue (F.world folder.old).tells → IsWhole (F.world folder.old) }
    requires fit { IsFit frame.now }
    ensures { Closes frame.now (T.bench tools.old) (T.bench tools.new)
        (F.world folder.old) (F.world folder.new) result }
{
    run_execs(alloc, tools, folder, frame.steps.len(), &frame.execs)?;
    cleared_answer(clear(alloc, folder, frame))
}

/// Makes a job's file of its components that stand, and does what is to be done behind that.
pub(crate) fn complete<F: Folder, T: Tools<F>>(
    alloc: Global,
    tools: &mut T,
    folder: &mut F,
    frame: &Frame,
) -> Result<(), Stop>
    requires whole { IsTrue (F.world folder.old).tells → IsWhole (F.world folder.old) }
    requires fit { IsFit frame.now }
    ensures { Completes frame.now (T.bench tools.old) (T.bench tools.new)
        (F.world folder.old) (F.world folder.new) result }
{
    finish(alloc, tools, folder, &frame.steps, &frame.final_name)?;
    close(alloc, tools, folder, frame)
}
