//! Runs the steps of a job one after another.
ghost use Rattle.std.specs.Prelude.{◌≡◌, ◌∷◌, [], IsTrue, IfOk, OnOk, None, bytes_eq, false, map, not, ◌&&◌, is_some};
ghost use Rattle.folder_base.specs.Story.{IsWhole};
ghost use Rattle.keep_store.specs.Opening.{Looked};
ghost use Rattle.folder_steps.specs.Blames.{Blames};
ghost use Rattle.tool_chain.specs.Jobs.{job_of, is_output, leaves, OutputsApart};
ghost use Rattle.tool_chain.specs.Runs.{Spares};
ghost use Rattle.tool_chain.specs.Chain.{Chains};

use crate::fault::{ToolCause, ToolFault};
use crate::job::ToolJob;
use crate::tools::Tools;
use folder_base::{Folder, FolderCall, StoreFault};
use folder_steps::{is_there, store_fault};
use std::alloc::Global;
use text_base::FolderFault;

/// Removes what stands under the name of a job's output.
fn clear_output<F: Folder>(folder: &mut F, job: &ToolJob) -> Result<(), StoreFault>
    requires whole { IsTrue (F.world folder.old).tells → IsWhole (F.world folder.old) }
    ensures spares { Spares (is_output (job_of job.now)) (F.world folder.old) (F.world folder.new) }
    ensures blames { Blames (F.world folder.old) (F.world folder.new) result }
    ensures free { IsTrue (F.world folder.new).tells
        → OnOk result (leaves (job_of job.now) (F.world folder.new).story.now ≡ false) }
{
    let Some(output) = &job.output else {
        return Ok(());
    };
    clear(folder, output.as_str())
}

/// Removes what stands under a name.
fn clear<F: Folder>(folder: &mut F, name: &str) -> Result<(), StoreFault>
    requires whole { IsTrue (F.world folder.old).tells → IsWhole (F.world folder.old) }
    ensures spares { Spares (bytes_eq name.now) (F.world folder.old) (F.world folder.new) }
    ensures blames { Blames (F.world folder.old) (F.world folder.new) result }
    ensures gone { IsTrue (F.world folder.new).tells
        → OnOk result ((F.world folder.new).story.now.live name.now ≡ None) }
{
    if !is_there(folder, name)? {
        return Ok(());
    }
    match folder.remove(name) {
        Ok(()) => Ok(()),
        Err(fault) => Err(store_fault(FolderCall::Remove, fault)),
    }
}

/// Whether a job has an output, and it does not stand.
fn lacks_output<F: Folder>(folder: &mut F, job: &ToolJob) -> Result<bool, StoreFault>
    requires whole { IsTrue (F.world folder.old).tells → IsWhole (F.world folder.old) }
    ensures looked { Looked (F.world folder.old) (F.world folder.new) }
    ensures blames { Blames (F.world folder.old) (F.world folder.new) result }
    ensures told { IsTrue (F.world folder.new).tells
        → IfOk result
        (λ lacks. lacks ≡ (is_some (job_of job.now).output
        && not (leaves (job_of job.now) (F.world folder.old).story.now))) }
{
    let Some(output) = &job.output else {
        return Ok(false);
    };
    let stands = is_there(folder, output.as_str())?;
    Ok(!stands)
}

/// Runs the child of one step, after what stood under its output's name was removed.
fn run_step<F: Folder, T: Tools<F>>(
    alloc: Global,
    tools: &mut T,
    folder: &mut F,
    step: usize,
    job: &ToolJob,
) -> Result<(), ToolFault>
    requires whole { IsTrue (F.world folder.old).tells → IsWhole (F.world folder.old) }
    requires apart { OutputsApart (job_of job.now ∷ []) }
    ensures { Chains step (job_of job.now ∷ []) (T.bench tools.old) (T.bench tools.new)
        (F.world folder.old) (F.world folder.new) result }
{
    clear_output(folder, job)?;
    let status = match tools.run(alloc, folder, job) {
        Ok(status) => status,
        Err(FolderFault::Failed) => {
            return Err(ToolFault::Tool {
                step,
                cause: ToolCause::Start,
            });
        }
        Err(FolderFault::OutOfMemory) => return Err(ToolFault::OutOfMemory),
    };
    if status != 0 {
        return Err(ToolFault::Tool {
            step,
            cause: ToolCause::Status(status),
        });
    }
    if lacks_output(folder, job)? {
        return Err(ToolFault::Tool {
            step,
            cause: ToolCause::NoOutput,
        });
    }
    Ok(())
}

/// Runs the steps in order, up to the first one that is refused. Before each step what stands under
/// its output's name is removed; after it its output has to stand.
pub fn run_chain<F: Folder, T: Tools<F>>(
    alloc: Global,
    tools: &mut T,
    folder: &mut F,
    steps: &Vec<ToolJob>,
) -> Result<(), ToolFault>
    requires whole { IsTrue (F.world folder.old).tells → IsWhole (F.world folder.old) }
    requires apart { OutputsApart (map job_of steps.now.items) }
    ensures { Chains 0 (map job_of steps.now.items) (T.bench tools.old) (T.bench tools.new)
        (F.world folder.old) (F.world folder.new) result }
{
    for (step, job) in steps.iter().enumerate() {
        run_step(alloc, tools, folder, step, job)?;
    }
    Ok(())
}
