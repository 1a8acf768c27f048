ghost use Rattle.std.specs.Prelude.{IsTrue, IsErrOf};
ghost use Rattle.folder_base.specs.Story.{World, IsWhole};
ghost use Rattle.tool_chain.specs.Jobs.{job_of, is_output};
ghost use Rattle.tool_chain.specs.Runs.{Bench, Starts, Spares, HidesNone, IsRunOf, Adds, status_of, Works};

use crate::job::ToolJob;
use folder_base::Folder;
use std::alloc::Global;
use text_base::FolderFault;

/// Runs child tools over a folder. `Failed` counts the starts that failed; a call that answers
/// `OutOfMemory` adds no run to those that are told, and every other call adds one.
pub trait Tools<F: Folder> {
    /// What the tools tell of their runs, and their count of faults.
    ghost bench: { Self → Bench };

    /// Starts a child, waits for its end and answers its status: 255 where a signal ended it. Only
    /// the file under the job's output may change.
    fn run(&mut self, alloc: Global, folder: &mut F, job: &ToolJob) -> Result<u8, FolderFault>
        requires whole { IsTrue (F.world folder.old).tells → IsWhole (F.world folder.old) }
        ensures starts { Starts (IsErrOf result FolderFault.Failed) (bench self.old) (bench self.new) }
        ensures spares { Spares (is_output (job_of job.now)) (F.world folder.old) (F.world folder.new) }
        ensures hides { HidesNone (F.world folder.old) (F.world folder.new) result }
        ensures told { IsTrue (bench self.new).tells
            → Adds (IsRunOf (bench self.old).make (job_of job.now)
            (F.world folder.old) (F.world folder.new))
            (status_of result) (bench self.old).runs (bench self.new).runs }
        ensures works { Works (job_of job.now) (bench self.old)
            (F.world folder.old) (F.world folder.new) result };
}
