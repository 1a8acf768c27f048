//! Makes a job's file of its components, and runs the commands for it.
ghost use Rattle.std.specs.Prelude.{◌≡◌, IsTrue, All, None, map};
ghost use Rattle.folder_base.specs.Story.{IsWhole};
ghost use Rattle.tool_chain.specs.Jobs.{job_of, OutputsApart};
ghost use Rattle.job_plan.specs.Laws.{last_output};
ghost use Rattle.job_turn.specs.Steps.{IsNamed, Finishes, Publishes, Runs};

use crate::end::{Stop, chain_answer, final_answer};
use folder_base::{Folder, StoreFault};
use std::alloc::Global;
use text_base::Text;
use tool_chain::{ToolJob, Tools, run_chain};

/// Publishes a file under another name.
fn publish<F: Folder>(folder: &mut F, from: &str, to: &str) -> Result<(), StoreFault>
    requires { IsTrue (F.world folder.old).tells → IsWhole (F.world folder.old) }
    ensures { Publishes from.now to.now (F.world folder.old) (F.world folder.new) result }
{
    keep_store::publish(folder, from, to)
}

/// Gives the output of the last step the final name.
fn name_output<F: Folder>(
    folder: &mut F,
    steps: &Vec<ToolJob>,
    final_name: &Text,
) -> Result<(), Stop>
    requires { IsTrue (F.world folder.old).tells → IsWhole (F.world folder.old) }
    ensures { IsNamed (last_output (map job_of steps.now.items)) final_name.now
        (F.world folder.old) (F.world folder.new) result }
{
    let Some(step) = steps.last() else {
        return Ok(());
    };
    let Some(output) = &step.output else {
        return Ok(());
    };
    final_answer(publish(folder, output.as_str(), final_name.as_str()))
}

/// Runs the steps of a job, and gives the output of the last one the final name.
pub(crate) fn finish<F: Folder, T: Tools<F>>(
    alloc: Global,
    tools: &mut T,
    folder: &mut F,
    steps: &Vec<ToolJob>,
    final_name: &Text,
) -> Result<(), Stop>
    requires whole { IsTrue (F.world folder.old).tells → IsWhole (F.world folder.old) }
    requires apart { OutputsApart (map job_of steps.now.items) }
    ensures { Finishes (map job_of steps.now.items) final_name.now (T.bench tools.old) (T.bench tools.new)
        (F.world folder.old) (F.world folder.new) result }
{
    chain_answer(0, run_chain(alloc, tools, folder, steps))?;
    name_output(folder, steps, final_name)
}

/// Runs the commands for a job's file, the first of which has this number.
pub(crate) fn run_execs<F: Folder, T: Tools<F>>(
    alloc: Global,
    tools: &mut T,
    folder: &mut F,
    first: usize,
    execs: &Vec<ToolJob>,
) -> Result<(), Stop>
    requires whole { IsTrue (F.world folder.old).tells → IsWhole (F.world folder.old) }
    requires silent { All (λ exec. exec.output ≡ None) (map job_of execs.now.items) }
    ensures { Runs first (map job_of execs.now.items) (T.bench tools.old) (T.bench tools.new)
        (F.world folder.old) (F.world folder.new) result }
{
    chain_answer(first, run_chain(alloc, tools, folder, execs))
}
