//! Does the same work by the folder on the disk and by plain loops over std's files, for measuring.
#![tactic(auto)]

mod fault;
mod folder_side;
mod names;
mod plain_side;
mod work;

ghost use Rattle.std.specs.Prelude.{◌≡◌, ◌<◌, OnOk, OnErr};

use disk_folder::DiskFolder;
use fault::Fault;
use std::alloc::Global;
use std::env;
use std::fs::Files;
use std::process::ExitCode;
use work::{Side, Task, Work, task_of};

/// How many bytes are put at once, as many as a worker takes at most from one reply.
const BLOCK: usize = 65_536;

/// How many of them make a MiB.
const BLOCKS: u64 = 16;

/// The work by the folder.
fn by_folder<R: Files>(alloc: Global, files: &R, work: Work, count: u64) -> Result<(), Fault> {
    let mut folder = DiskFolder::new(files, alloc);
    match work {
        Work::Append => folder_side::append(alloc, &mut folder, count)?,
        Work::Open => {
            folder_side::open(alloc, &mut folder, count)?;
        }
        Work::Finish => {
            let mut lanes = folder_side::open(alloc, &mut folder, count)?;
            folder_side::finish(&mut lanes)?;
        }
    }
    Ok(())
}

/// The work by plain loops.
fn by_loop<R: Files>(alloc: Global, files: &R, work: Work, count: u64) -> Result<(), Fault> {
    match work {
        Work::Append => plain_side::append(alloc, files, count),
        Work::Open => plain_side::open(alloc, files, count),
        Work::Finish => {
            plain_side::open(alloc, files, count)?;
            plain_side::finish(alloc, files, count)
        }
    }
}

/// Does what the words ask for, in the folder that they name.
fn run(rt: &HostRuntime) -> Result<(), Fault> {
    let alloc = rt.alloc();
    let words: Vec<String> = env::args(rt)?.skip(1).collect(alloc)?;
    let Some(
        Task {
            work,
            side,
            folder,
            count,
        },
    ) = task_of(&words)
    else {
        return Err(Fault::Words);
    };
    env::set_current_dir(rt, folder)?;
    match side {
        Side::Folder => by_folder(alloc, rt, work, count),
        Side::Plain => by_loop(alloc, rt, work, count),
    }
}

/// The status of the program: 1 where the work was not done.
fn status(done: Result<(), Fault>) -> u8
    ensures done { OnOk done (result ≡ 0) }
    ensures failed { OnErr done (result ≡ 1) }
{
    match done {
        Ok(()) => 0,
        Err(_) => 1,
    }
}

fn main(rt: HostRuntime) -> ExitCode {
    let done = run(&rt);
    if let Err(fault) = done {
        let _ = eprintln!(rt; "ERROR: {}", fault.text());
    }
    ExitCode::from(status(done))
}
