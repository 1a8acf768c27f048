ghost use Rattle.std.specs.Prelude.{◌≡◌, ◌<◌, ℕ, None, Some, pos};
ghost use Rattle.std.specs.Process.{exit_code};
ghost use Rattle.disk_folder.specs.Silent.{world_of};
ghost use Rattle.child_tools.specs.Silent.{silent, bench_of};

use crate::last_words::{LastWords, whole_lines};
use disk_folder::DiskFolder;
use std::alloc::{AllocError, Global};
use std::fs::Files;
use std::io::{self, ErrorKind, Write};
use std::process::{Command, ExitStatus, Processes, Stdio};
use text_base::{FaultCount, FolderFault};
use tool_chain::{ToolJob, Tools};

/// The status of a child that a signal ended.
const BY_SIGNAL: u8 = 255;

/// Runs child programs. It tells nothing but its count of starts that failed. Of what the child of a
/// step writes on its error output the last bytes go to `err`, in lines of their own, where it did
/// not end with status 0.
#[derive(Drop)]
pub struct ChildTools<'a, P: Processes, W: Write + Drop> {
    processes: &'a P,
    err: W,
    faults: FaultCount,
}

impl<'a, P: Processes, W: Write + Drop> ChildTools<'a, P, W> {
    pub fn new(processes: &'a P, err: W) -> Self
        ensures { bench_of result ≡ silent 0 }
    {
        ChildTools {
            processes,
            err,
            faults: FaultCount::new(),
        }
    }

    /// How many starts failed.
    pub fn faults(&self) -> u64
        ensures { result ≡ (bench_of self.now).faults }
    {
        self.faults.count()
    }

    /// What the words of the children went to.
    pub fn into_err(self) -> W {
        self.err
    }

    /// Starts a child, takes what it writes on a pipe, and waits for its end.
    fn run_to_end(&mut self, command: &mut Command, words: &mut LastWords) -> io::Result<u8>
        ensures { bench_of self.new ≡ bench_of self.old }
    {
        let mut child = command.spawn(self.processes)?;
        if let Some(mut pipe) = child.stderr.take() {
            words.take_all(&mut pipe);
        }
        let status = status_of(child.wait()?);
        if status != 0 {
            // What cannot be printed is lost.
            let _ = self.err.write_all(whole_lines(words));
            if !words.ends_a_line() {
                let _ = self.err.write_all(b"\n");
            }
        }
        Ok(status)
    }
}

/// The status that a child ended with.
fn status_of(status: ExitStatus) -> u8
    ensures by_signal { exit_code status ≡ None → result ≡ 255 }
    ensures ended { (n : ℕ) → n < 256 → exit_code status ≡ Some (pos n) → result ≡ n }
{
    match status.code() {
        Some(code) => u8::try_from(code).unwrap_or(BY_SIGNAL),
        None => BY_SIGNAL,
    }
}

/// The command of a job: its program and arguments as they are, and an empty input. What a step with
/// an output prints is dropped, and its error output goes through a pipe; one without an output has
/// the program's own streams.
fn command_of(alloc: Global, job: &ToolJob) -> Result<Command, AllocError> {
    let mut command = Command::new(alloc, job.program.as_str())?;
    for arg in &job.args {
        command.arg(arg.as_str())?;
    }
    command.stdin(Stdio::null());
    if job.output.is_some() {
        command.stdout(Stdio::null());
        command.stderr(Stdio::piped());
    }
    Ok(command)
}

/// The command of a job, and room for the last words of its child. The folder notes that the name of
/// its output is to change.
fn prepare<R: Files>(
    alloc: Global,
    folder: &mut DiskFolder<'_, R>,
    job: &ToolJob,
) -> Result<(Command, LastWords), AllocError>
    ensures { world_of folder.new ≡ world_of folder.old }
{
    if let Some(output) = &job.output {
        folder.note_change(output.as_str())?;
    }
    Ok((command_of(alloc, job)?, LastWords::new(alloc)?))
}

impl<'a, R: Files, P: Processes, W: Write + Drop> Tools<DiskFolder<'a, R>>
    for ChildTools<'_, P, W> {
    ghost bench = { bench_of };

    fn run(
        &mut self,
        alloc: Global,
        folder: &mut DiskFolder<'a, R>,
        job: &ToolJob,
    ) -> Result<u8, FolderFault> {
        folder.let_go();
        let Ok((mut command, mut words)) = prepare(alloc, folder, job) else {
            return Err(FolderFault::OutOfMemory);
        };
        let done = self.run_to_end(&mut command, &mut words);
        match &job.output {
            Some(output) => folder.ask_again(output.as_str()),
            None => folder.forget_names(),
        }
        match done {
            Ok(status) => Ok(status),
            Err(fault) if fault.kind() == ErrorKind::OutOfMemory => Err(FolderFault::OutOfMemory),
            Err(_) => {
                self.faults.rise();
                Err(FolderFault::Failed)
            }
        }
    }
}
