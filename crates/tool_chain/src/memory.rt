ghost use Rattle.std.specs.Prelude.{◌≡◌, IsTrue, IfOk, IsErrOf, length, map};
ghost use Rattle.folder_base.specs.Story.{World, IsWhole};
ghost use Rattle.tool_chain.specs.Jobs.{job_of, is_output};
ghost use Rattle.tool_chain.specs.Memory.{bench_of, script_of, begun, run_of, turn_at, Answers};
ghost use Rattle.tool_chain.specs.Runs.{Bench, Starts, Spares, HidesNone, IsRunOf, Adds, status_of, Works};

use crate::act::run_child;
use crate::job::ToolJob;
use crate::run::ToolRun;
use crate::tools::Tools;
use crate::turn::ToolTurn;
use folder_base::Folder;
use std::alloc::Global;
use text_base::{FaultCount, FolderFault, OutOfMemory};

/// Tools in memory: the children of a script, by the calls of the folder. Run number k follows turn
/// k, later ones are good. A child joins its inputs, in order; where a call of the folder fails, or
/// something stands under its output's name, it ends with status 1.
#[derive(Drop)]
pub struct ToolsMem {
    script: Vec<ToolTurn>,
    faults: FaultCount,
    runs: Vec<ToolRun>,
}

impl ToolsMem {
    /// Tools by a script, before their first run.
    pub fn new(alloc: Global, script: Vec<ToolTurn>) -> Result<ToolsMem, OutOfMemory>
        ensures told { IfOk result (λ tools. bench_of tools ≡ begun script.items) }
        ensures script { IfOk result (λ tools. script_of tools ≡ script.items) }
    {
        Ok(ToolsMem {
            script,
            faults: FaultCount::new(),
            runs: Vec::new(alloc),
        })
    }

    /// The runs so far, the first one first.
    pub fn runs(&self) -> &Vec<ToolRun>
        ensures { map run_of result.now.items ≡ (bench_of self.now).runs }
    {
        &self.runs
    }

    /// The turn of the next run.
    fn turn(&self) -> ToolTurn
        ensures { result ≡ turn_at (script_of self.now) (length (bench_of self.now).runs) }
    {
        match self.script.get(self.runs.len()) {
            Some(turn) => *turn,
            None => ToolTurn::Good,
        }
    }
}

impl<F: Folder> Tools<F> for ToolsMem {
    ghost bench = { bench_of };

    fn run(&mut self, alloc: Global, folder: &mut F, job: &ToolJob) -> Result<u8, FolderFault>
        requires whole { IsTrue (F.world folder.old).tells → IsWhole (F.world folder.old) }
        ensures starts { Starts (IsErrOf result FolderFault.Failed) (bench_of self.old) (bench_of self.new) }
        ensures spares { Spares (is_output (job_of job.now)) (F.world folder.old) (F.world folder.new) }
        ensures hides { HidesNone (F.world folder.old) (F.world folder.new) result }
        ensures told { IsTrue (bench_of self.new).tells
            → Adds (IsRunOf (bench_of self.old).make (job_of job.now)
            (F.world folder.old) (F.world folder.new))
            (status_of result) (bench_of self.old).runs (bench_of self.new).runs }
        ensures works { Works (job_of job.now) (bench_of self.old)
            (F.world folder.old) (F.world folder.new) result }
        ensures script { script_of self.new ≡ script_of self.old }
        ensures answers { Answers
            (turn_at (script_of self.old) (length (bench_of self.old).runs)) (job_of job.now)
            (F.world folder.old) (F.world folder.new) result }
    {
        let turn = self.turn();
        if self.runs.reserve(1).is_err() {
            return Err(FolderFault::OutOfMemory);
        }
        let Ok(run) = run_child(alloc, folder, job, turn) else {
            return Err(FolderFault::OutOfMemory);
        };
        let status = run.status;
        self.runs.push_reserved(run);
        match status {
            Some(status) => Ok(status),
            None => {
                self.faults.rise();
                Err(FolderFault::Failed)
            }
        }
    }
}
