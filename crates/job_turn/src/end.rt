//! How a job's turn ends.
ghost use Rattle.std.specs.Prelude.{◌≡◌};
ghost use Rattle.job_turn.specs.Ends.{fault_at, component_answer, chain_answer, final_answer, cleared_answer, stood_answer, turn_answer};

use component_turn::ComponentEnd;
use folder_base::{FolderCall, StoreFault};
use link_http::PieceFault;
use tool_chain::{ToolCause, ToolFault};

/// What became of a job.
#[derive(Clone, Copy, Debug, PartialEq, Eq)]
pub enum JobEnd {
    /// Its file was made.
    Done,
    /// Its file stood already.
    Already,
    /// A piece failed: the first of the first component that has one, both counted from 0.
    Fragment {
        component: usize,
        piece: usize,
        tries: u32,
        cause: PieceFault,
    },
    /// The child of a step failed. Steps are counted from 0, and the commands that are run for the file
    /// behind the steps that make it.
    Tool {
        step: usize,
        cause: ToolCause,
    },
}

/// Whose name a fault of the folder is told with.
#[derive(Clone, Copy, Debug, PartialEq, Eq)]
pub enum FaultAt {
    /// The component with this number.
    Component(usize),
    /// The file that the job makes.
    Final,
}

/// Why a job's turn broke off.
#[derive(Clone, Copy, Debug, PartialEq, Eq)]
pub enum TurnFault {
    /// This call of the folder failed.
    Folder { call: FolderCall, at: FaultAt },
    /// Memory ran out.
    OutOfMemory,
}

/// Why a turn goes no further: it came to its end early, or broke off.
#[derive(Clone, Copy, Debug, PartialEq, Eq)]
pub(crate) enum Stop {
    End(JobEnd),
    Fault(TurnFault),
}

/// The fault of a turn for a refusal of its folder.
pub(crate) fn fault_at(at: FaultAt, fault: StoreFault) -> TurnFault
    ensures { result ≡ fault_at at fault }
{
    match fault {
        StoreFault::Folder { call } => TurnFault::Folder { call, at },
        StoreFault::OutOfMemory => TurnFault::OutOfMemory,
    }
}

/// What a component's end means for its job.
pub(crate) fn component_answer(
    component: usize,
    made: Result<ComponentEnd, StoreFault>,
) -> Result<(), Stop>
    ensures { result ≡ component_answer component made }
{
    match made {
        Ok(ComponentEnd::Whole) => Ok(()),
        Ok(
            ComponentEnd::Failed {
                piece,
                tries,
                cause,
            },
        ) => Err(Stop::End(JobEnd::Fragment {
            component,
            piece,
            tries,
            cause,
        })),
        Err(fault) => Err(Stop::Fault(fault_at(FaultAt::Component(component), fault))),
    }
}

/// What the answer of children means for their job, the first of which has this number.
pub(crate) fn chain_answer(first: usize, done: Result<(), ToolFault>) -> Result<(), Stop>
    ensures { result ≡ chain_answer first done }
{
    match done {
        Ok(()) => Ok(()),
        Err(ToolFault::Tool { step, cause }) => Err(Stop::End(JobEnd::Tool {
            step: first.saturating_add(step),
            cause,
        })),
        Err(ToolFault::Folder { call }) => Err(Stop::Fault(TurnFault::Folder {
            call,
            at: FaultAt::Final,
        })),
        Err(ToolFault::OutOfMemory) => Err(Stop::Fault(TurnFault::OutOfMemory)),
    }
}

/// What a removal behind a job means for it.
pub(crate) fn cleared_answer(cleared: Result<(), TurnFault>) -> Result<(), Stop>
    ensures { result ≡ cleared_answer cleared }
{
    match cleared {
        Ok(()) => Ok(()),
        Err(fault) => Err(Stop::Fault(fault)),
    }
}

/// What that means for a job whose file stood.
pub(crate) fn stood_answer(cleared: Result<(), TurnFault>) -> Result<JobEnd, TurnFault>
    ensures { result ≡ stood_answer cleared }
{
    match cleared {
        Ok(()) => Ok(JobEnd::Already),
        Err(fault) => Err(fault),
    }
}

/// What a refusal under the final name means for a job.
pub(crate) fn final_answer(done: Result<(), StoreFault>) -> Result<(), Stop>
    ensures { result ≡ final_answer done }
{
    match done {
        Ok(()) => Ok(()),
        Err(fault) => Err(Stop::Fault(fault_at(FaultAt::Final, fault))),
    }
}

/// The answer of a turn.
pub(crate) fn turn_answer(done: Result<(), Stop>) -> Result<JobEnd, TurnFault>
    ensures { result ≡ turn_answer done }
{
    match done {
        Ok(()) => Ok(JobEnd::Done),
        Err(Stop::End(end)) => Ok(end),
        Err(Stop::Fault(fault)) => Err(fault),
    }
}
