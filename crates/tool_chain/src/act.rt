//! How a child in memory goes through its job.
ghost use Rattle.std.specs.Prelude.{◌≡◌, ◌⊎◌, Some, true, false, IsTrue, IfOk, OnErr, map, is_none};
ghost use Rattle.folder_base.specs.Story.{IsWhole};
ghost use Rattle.keep_store.specs.Opening.{Looked};
ghost use Rattle.folder_steps.specs.Blames.{Blames, BlamesMemory};
ghost use Rattle.tool_chain.specs.Jobs.{job_of, is_output, leaves, OutputIs, CanRun};
ghost use Rattle.tool_chain.specs.Memory.{bytes_of, joined, joins, run_of, fails_start, failed, EndsBy, HasEnded};
ghost use Rattle.tool_chain.specs.Runs.{Spares, IsRunOf};

use crate::child::{Inputs, make_output, read_inputs};
use crate::job::ToolJob;
use crate::run::{ToolRun, copy_job};
use crate::turn::{ToolTurn, code_of};
use folder_base::{Folder, StoreFault};
use folder_steps::is_there;
use std::alloc::Global;
use text_base::OutOfMemory;

/// The status of a child one of whose calls failed, or whose output stood before.
const FAILED: u8 = 1;

/// Whether the output of a job stands.
fn output_stands<F: Folder>(folder: &mut F, job: &ToolJob) -> Result<bool, StoreFault>
    requires whole { IsTrue (F.world folder.old).tells → IsWhole (F.world folder.old) }
    ensures looked { Looked (F.world folder.old) (F.world folder.new) }
    ensures told { IsTrue (F.world folder.new).tells
        → IfOk result (λ stands. stands ≡ leaves (job_of job.now) (F.world folder.old).story.now) }
    ensures blames { Blames (F.world folder.old) (F.world folder.new) result }
{
    let Some(output) = &job.output else {
        return Ok(false);
    };
    is_there(folder, output.as_str())
}

/// What a child that has read its inputs does by its turn, and the status that it ends with.
fn act<F: Folder>(
    alloc: Global,
    folder: &mut F,
    job: &ToolJob,
    turn: ToolTurn,
    inputs: &Vec<Option<Vec<u8>>>,
) -> Result<u8, StoreFault>
    requires whole { IsTrue (F.world folder.old).tells → IsWhole (F.world folder.old) }
    ensures spares { Spares (is_output (job_of job.now)) (F.world folder.old) (F.world folder.new) }
    ensures made { IsTrue (F.world folder.new).tells
        → IfOk result
        (λ status. status ≡ 0 → leaves (job_of job.now) (F.world folder.new).story.now ≡ true
        → OutputIs (joined (map bytes_of inputs.now.items)) (job_of job.now) (F.world folder.new).story.now) }
    ensures ends { IsTrue (F.world folder.new).tells
        → leaves (job_of job.now) (F.world folder.old).story.now ≡ false → fails_start turn ≡ false
        → IfOk result (λ status. EndsBy turn (job_of job.now) (F.world folder.new).story.now (Some status)) }
    ensures blames { BlamesMemory (F.world folder.old) (F.world folder.new) result }
{
    let Some(output) = &job.output else {
        return Ok(code_of(turn));
    };
    if turn == ToolTurn::NoOutput {
        let stands = is_there(folder, output.as_str())?;
        return Ok(if stands { FAILED } else { 0 });
    }
    if make_output(alloc, folder, output.as_str(), inputs)? {
        Ok(code_of(turn))
    } else {
        Ok(FAILED)
    }
}

/// The status of a child by its turn; none where it does not start.
fn status_by<F: Folder>(
    alloc: Global,
    folder: &mut F,
    job: &ToolJob,
    turn: ToolTurn,
    inputs: &Vec<Option<Vec<u8>>>,
) -> Result<Option<u8>, StoreFault>
    requires whole { IsTrue (F.world folder.old).tells → IsWhole (F.world folder.old) }
    ensures spares { Spares (is_output (job_of job.now)) (F.world folder.old) (F.world folder.new) }
    ensures starts { IfOk result (λ status. is_none status ≡ fails_start turn) }
    ensures made { IsTrue (F.world folder.new).tells
        → IfOk result
        (λ status. status ≡ Some 0 → leaves (job_of job.now) (F.world folder.new).story.now ≡ true
        → OutputIs (joined (map bytes_of inputs.now.items)) (job_of job.now) (F.world folder.new).story.now) }
    ensures ends { IsTrue (F.world folder.new).tells
        → leaves (job_of job.now) (F.world folder.old).story.now ≡ false
        → IfOk result (EndsBy turn (job_of job.now) (F.world folder.new).story.now) }
    ensures blames { BlamesMemory (F.world folder.old) (F.world folder.new) result }
{
    if turn == ToolTurn::StartFails {
        return Ok(None);
    }
    let status = act(alloc, folder, job, turn, inputs)?;
    Ok(Some(status))
}

/// How a child ended: its status, none where it did not start, and whether its output stood then.
#[derive(Clone, Copy)]
pub(crate) struct ChildEnd {
    pub(crate) status: Option<u8>,
    pub(crate) left: bool,
}

/// How a child ends that has read its inputs.
fn end_by<F: Folder>(
    alloc: Global,
    folder: &mut F,
    job: &ToolJob,
    turn: ToolTurn,
    inputs: &Vec<Option<Vec<u8>>>,
) -> Result<ChildEnd, StoreFault>
    requires whole { IsTrue (F.world folder.old).tells → IsWhole (F.world folder.old) }
    ensures spares { Spares (is_output (job_of job.now)) (F.world folder.old) (F.world folder.new) }
    ensures starts { IfOk result (λ end. is_none end.status ≡ fails_start turn) }
    ensures left { IsTrue (F.world folder.new).tells
        → IfOk result (λ end. end.left ≡ leaves (job_of job.now) (F.world folder.new).story.now) }
    ensures made { IsTrue (F.world folder.new).tells
        → IfOk result
        (λ end. end.status ≡ Some 0 → leaves (job_of job.now) (F.world folder.new).story.now ≡ true
        → OutputIs (joined (map bytes_of inputs.now.items)) (job_of job.now) (F.world folder.new).story.now) }
    ensures ends { IsTrue (F.world folder.new).tells
        → leaves (job_of job.now) (F.world folder.old).story.now ≡ false
        → IfOk result (λ end. EndsBy turn (job_of job.now) (F.world folder.new).story.now end.status) }
    ensures blames { BlamesMemory (F.world folder.old) (F.world folder.new) result }
{
    let status = status_by(alloc, folder, job, turn, inputs)?;
    let left = output_stands(folder, job)?;
    Ok(ChildEnd { status, left })
}

/// How a child ends one of whose calls of the folder failed. It makes no other.
fn failed(turn: ToolTurn) -> ChildEnd
    ensures { result.status ≡ failed turn }
{
    let status = match turn {
        ToolTurn::StartFails => None,
        ToolTurn::Good | ToolTurn::Status(_) | ToolTurn::NoOutput => Some(FAILED),
    };
    ChildEnd {
        status,
        left: false,
    }
}

/// How a child ends by its turn and its inputs.
fn end_of<F: Folder>(
    alloc: Global,
    folder: &mut F,
    job: &ToolJob,
    turn: ToolTurn,
    inputs: &Inputs,
) -> Result<ChildEnd, OutOfMemory>
    requires whole { IsTrue (F.world folder.old).tells → IsWhole (F.world folder.old) }
    ensures spares { Spares (is_output (job_of job.now)) (F.world folder.old) (F.world folder.new) }
    ensures ended { IfOk result
        (λ end. (end.status ≡ failed turn) ⊎ HasEnded turn (job_of job.now) inputs.now
        (F.world folder.old) (F.world folder.new) end) }
    ensures steady { IsTrue (F.world folder.old).steady → IsTrue (F.world folder.old).tells
        → inputs.now.are_read ≡ true
        → IfOk result (HasEnded turn (job_of job.now) inputs.now
        (F.world folder.old) (F.world folder.new)) }
    ensures fed { OnErr result ((inputs.now.are_read ≡ true)
        × ((F.world folder.new).faults ≡ (F.world folder.old).faults)) }
{
    if !inputs.are_read {
        return Ok(failed(turn));
    }
    match end_by(alloc, folder, job, turn, &inputs.all) {
        Ok(end) => Ok(end),
        Err(StoreFault::Folder { .. }) => Ok(failed(turn)),
        Err(StoreFault::OutOfMemory) => Err(OutOfMemory),
    }
}

/// Runs a child by its turn. Where a call of the folder fails it ends with status 1.
pub(crate) fn run_child<F: Folder>(
    alloc: Global,
    folder: &mut F,
    job: &ToolJob,
    turn: ToolTurn,
) -> Result<ToolRun, OutOfMemory>
    requires whole { IsTrue (F.world folder.old).tells → IsWhole (F.world folder.old) }
    ensures spares { Spares (is_output (job_of job.now)) (F.world folder.old) (F.world folder.new) }
    ensures run { IfOk result
        (λ run. IsRunOf joins (job_of job.now) (F.world folder.old) (F.world folder.new) (run_of run)) }
    ensures starts { IfOk result (λ run. is_none run.status ≡ fails_start turn) }
    ensures failed { IfOk result
        (λ run. ((F.world folder.new).faults ≡ (F.world folder.old).faults) ⊎ (run.status ≡ failed turn)) }
    ensures fed { OnErr result ((F.world folder.new).faults ≡ (F.world folder.old).faults) }
    ensures ends { IsTrue (F.world folder.old).steady → IsTrue (F.world folder.old).tells
        → CanRun (job_of job.now) (F.world folder.old).story.now
        → IfOk result (λ run. EndsBy turn (job_of job.now) (F.world folder.new).story.now run.status) }
{
    let copy = copy_job(alloc, job)?;
    let inputs = read_inputs(alloc, folder, &job.inputs)?;
    let end = end_of(alloc, folder, job, turn, &inputs)?;
    Ok(ToolRun {
        job: copy,
        inputs: inputs.all,
        status: end.status,
        left: end.left,
    })
}
