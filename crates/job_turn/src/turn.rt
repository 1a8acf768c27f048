//! A job's turn.
ghost use Rattle.std.specs.Prelude.{◌≡◌, IsTrue, IfOk, All, map, vec_len};
ghost use Rattle.folder_base.specs.Story.{IsWhole};
ghost use Rattle.job_turn.specs.Job.{HasPieces, IsReady, AreSettings};
ghost use Rattle.job_turn.specs.JobTurned.{JobTurned};
ghost use Rattle.job_turn.specs.Making.{IsFit};
ghost use Rattle.job_turn.specs.Turn.{Stood, Works, Goes};

use crate::clearing::some_recorded;
use crate::closing::{clear, complete};
use crate::components::make_all;
use crate::end::{FaultAt, JobEnd, Stop, TurnFault, fault_at, stood_answer, turn_answer};
use crate::frame::Frame;
use crate::settings::Settings;
use folder_base::Folder;
use folder_steps::is_there;
use job_plan::{Component, Job};
use link_http::Dialer;
use std::alloc::Global;
use std::thread::Threads;
use text_base::{OutOfMemory, Text};
use tool_chain::Tools;

/// The names of components.
fn names_of(alloc: Global, components: &[Component]) -> Result<Vec<Text>, OutOfMemory>
    ensures { IfOk result (λ names. names.items ≡ map (λ component. component.name) components.now) }
{
    let mut names = Vec::with_capacity(alloc, components.len())?;
    for component in components {
        names.push_reserved(Text::new(alloc, component.name.as_str())?);
    }
    Ok(names)
}

/// Removes what a job needed whose file stands already, where the record of a component tells that this
/// program made it.
fn clear_recorded<F: Folder>(
    alloc: Global,
    folder: &mut F,
    frame: &Frame,
) -> Result<JobEnd, TurnFault>
    requires whole { IsTrue (F.world folder.old).tells → IsWhole (F.world folder.old) }
    requires fit { IsFit frame.now }
    ensures { Stood frame.now (F.world folder.old) (F.world folder.new) result }
{
    match some_recorded(alloc, folder, &frame.components) {
        Ok(true) => stood_answer(clear(alloc, folder, frame)),
        Ok(false) => Ok(JobEnd::Already),
        Err(fault) => Err(fault_at(FaultAt::Final, fault)),
    }
}

/// Makes the file of a job.
fn make<R: Threads + Sync, F: Folder + Drop + Send, D: Dialer + Send, T: Tools<F>>(
    rt: &R,
    alloc: Global,
    folder: &mut F,
    dialers: &mut Vec<D>,
    tools: &mut T,
    components: Vec<Component>,
    frame: &Frame,
    settings: Settings,
) -> Result<(), Stop>
    requires whole { IsTrue (F.world folder.old).tells → IsWhole (F.world folder.old) }
    requires fit { IsFit frame.now }
    requires pieces { All HasPieces components.items }
    requires settings { AreSettings settings (vec_len dialers.old) }
    ensures works { Works D.wire settings frame.now components.items (T.bench tools.old) (T.bench tools.new)
        (F.world folder.old) (F.world folder.new) result dialers.old.items dialers.new.items }
    ensures dialers { vec_len dialers.new ≡ vec_len dialers.old }
{
    let is_final = frame.steps.is_empty();
    make_all(rt, alloc, folder, dialers, components, is_final, settings)?;
    complete(alloc, tools, folder, frame)
}

/// A job's turn, call by call.
fn go<R: Threads + Sync, F: Folder + Drop + Send, D: Dialer + Send, T: Tools<F>>(
    rt: &R,
    alloc: Global,
    folder: &mut F,
    dialers: &mut Vec<D>,
    tools: &mut T,
    job: Job,
    settings: Settings,
) -> Result<JobEnd, TurnFault>
    requires whole { IsTrue (F.world folder.old).tells → IsWhole (F.world folder.old) }
    requires ready { IsReady job }
    requires settings { AreSettings settings (vec_len dialers.old) }
    ensures goes { Goes D.wire settings job (T.bench tools.old) (T.bench tools.new)
        (F.world folder.old) (F.world folder.new) result dialers.old.items dialers.new.items }
    ensures dialers { vec_len dialers.new ≡ vec_len dialers.old }
{
    let Ok(components) = names_of(alloc, &job.components) else {
        return Err(TurnFault::OutOfMemory);
    };
    let frame = Frame {
        final_name: job.final_name,
        components,
        steps: job.steps,
        execs: job.execs,
        keep: settings.keep,
    };
    match is_there(folder, frame.final_name.as_str()) {
        Ok(true) => clear_recorded(alloc, folder, &frame),
        Ok(false) => turn_answer(make(
            rt,
            alloc,
            folder,
            dialers,
            tools,
            job.components,
            &frame,
            settings,
        )),
        Err(fault) => Err(fault_at(FaultAt::Final, fault)),
    }
}

/// Does a job: makes its components, of these its file, runs its commands for that, and removes what
/// it needed. A file that stands is left as it is, and nothing is asked for it.
pub fn turn_job<R: Threads + Sync, F: Folder + Drop + Send, D: Dialer + Send, T: Tools<F>>(
    rt: &R,
    alloc: Global,
    folder: &mut F,
    dialers: &mut Vec<D>,
    tools: &mut T,
    job: Job,
    settings: Settings,
) -> Result<JobEnd, TurnFault>
    requires whole { IsTrue (F.world folder.old).tells → IsWhole (F.world folder.old) }
    requires ready { IsReady job }
    requires settings { AreSettings settings (vec_len dialers.old) }
    ensures turned { JobTurned D.wire settings job (T.bench tools.old) (T.bench tools.new)
        (F.world folder.old) (F.world folder.new) result dialers.old.items dialers.new.items }
    ensures dialers { vec_len dialers.new ≡ vec_len dialers.old }
{
    go(rt, alloc, folder, dialers, tools, job, settings)
}
