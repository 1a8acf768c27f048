//! Child programs, by themselves and in chains.
ghost use Rattle.std.specs.Prelude.{◌≡◌, ◌⊎◌, [], None, IfOk, is_none, map};
ghost use Rattle.tool_chain.specs.Jobs.{job_of, OutputsApart};

use crate::counting::Counting;
use child_tools::ChildTools;
use disk_folder::DiskFolder;
use folder_base::Folder;
use std::alloc::Global;
use std::fs;
use std::test::Fail;
use text_base::{FolderFault, Text};
use tool_chain::{ToolCause, ToolFault, ToolJob, Tools, run_chain};

/// A job of the shell: `sh -c TEXT`.
fn shell_job(alloc: Global, text: &str, output: Option<&str>) -> Result<ToolJob, Fail>
    ensures inputs { IfOk result (λ job. (job_of job).inputs ≡ []) }
    ensures output { output.entry ≡ None → IfOk result (λ job. (job_of job).output ≡ None) }
{
    let mut args = Vec::new(alloc);
    args.push(Text::new(alloc, "-c")?)?;
    args.push(Text::new(alloc, text)?)?;
    let output = match output {
        Some(output) => Some(Text::new(alloc, output)?),
        None => None,
    };
    Ok(ToolJob {
        program: Text::new(alloc, "sh")?,
        args,
        inputs: Vec::new(alloc),
        output,
    })
}

/// A chain of two jobs that read no files, of which one makes none.
fn pair(alloc: Global, first: ToolJob, second: ToolJob) -> Result<Vec<ToolJob>, Fail>
    requires first { (job_of first).inputs ≡ [] }
    requires second { (job_of second).inputs ≡ [] }
    requires one { ((job_of first).output ≡ None) ⊎ ((job_of second).output ≡ None) }
    ensures { IfOk result (λ steps. OutputsApart (map job_of steps.items)) }
{
    let mut steps = Vec::new(alloc);
    steps.push(first)?;
    steps.push(second)?;
    Ok(steps)
}

#[test]
fn a_child_answers_its_status_and_its_last_words(rt: HostRuntime) -> Result<(), Fail> {
    let alloc = rt.alloc();
    let files = Counting::new(&rt);
    let mut folder = DiskFolder::new(&files, alloc);
    let mut tools = ChildTools::new(&rt, Vec::new(alloc));
    let why = shell_job(alloc, "echo dropped; printf why >&2; exit 3", Some("out"))?;
    assert_eq!(rt; tools.run(alloc, &mut folder, &why), Ok(3));
    let good = shell_job(alloc, "echo not printed >&2", Some("out"))?;
    assert_eq!(rt; tools.run(alloc, &mut folder, &good), Ok(0));
    let killed = shell_job(alloc, "kill -9 $$", Some("out"))?;
    assert_eq!(rt; tools.run(alloc, &mut folder, &killed), Ok(255));
    assert_eq!(rt; tools.faults(), 0);
    // The name of an output is to last.
    assert_eq!(rt; folder.settle(), Ok(()));
    assert_eq!(rt; files.syncs(), 1);
    assert_eq!(rt; tools.into_err().as_slice(), b"why\n".as_slice());
    Ok(())
}

#[test]
fn megabytes_on_both_outputs_block_no_child(rt: HostRuntime) -> Result<(), Fail> {
    let alloc = rt.alloc();
    let mut folder = DiskFolder::new(&rt, alloc);
    let mut tools = ChildTools::new(&rt, Vec::new(alloc));
    let text = "head -c 10485760 /dev/zero; head -c 10485760 /dev/zero >&2; exit 3";
    let job = shell_job(alloc, text, Some("out"))?;
    assert_eq!(rt; tools.run(alloc, &mut folder, &job), Ok(3));
    assert_eq!(rt; tools.into_err().len(), 4097);
    Ok(())
}

#[test]
fn a_child_that_is_missing_does_not_start(rt: HostRuntime) -> Result<(), Fail> {
    let alloc = rt.alloc();
    let mut folder = DiskFolder::new(&rt, alloc);
    let mut tools = ChildTools::new(&rt, Vec::new(alloc));
    let mut job = shell_job(alloc, "true", Some("out"))?;
    job.program = Text::new(alloc, "./no-such-tool")?;
    assert_eq!(rt;
        tools.run(alloc, &mut folder, &job),
        Err(FolderFault::Failed)
    );
    assert_eq!(rt; tools.faults(), 1);
    Ok(())
}

#[test]
fn a_chain_makes_its_outputs_or_stops(rt: HostRuntime) -> Result<(), Fail> {
    let alloc = rt.alloc();
    fs::write(&rt, "a", "first ")?;
    fs::write(&rt, "b", "second")?;
    fs::write(&rt, "out", "of an earlier run")?;
    let mut folder = DiskFolder::new(&rt, alloc);
    let standing = folder.names(alloc, "")?.len();
    let mut tools = ChildTools::new(&rt, Vec::new(alloc));
    let step = shell_job(alloc, "cat a b > out", Some("out"))?;
    let steps = pair(alloc, step, shell_job(alloc, "mv out moved", None)?)?;
    assert_eq!(rt; run_chain(alloc, &mut tools, &mut folder, &steps), Ok(()));
    assert_eq!(rt; fs::read_to_string(&rt, "moved")?.as_str(), "first second");
    assert_eq!(rt; folder.names(alloc, "")?.len(), standing);
    assert_eq!(rt; folder.names(alloc, "moved")?.len(), 1);
    let step = shell_job(alloc, "true", Some("moved"))?;
    let lazy = pair(alloc, step, shell_job(alloc, "touch too_far", None)?)?;
    let none = ToolFault::Tool {
        step: 0,
        cause: ToolCause::NoOutput,
    };
    assert_eq!(rt; run_chain(alloc, &mut tools, &mut folder, &lazy), Err(none));
    assert_eq!(rt; folder.size("too_far"), Ok(None));
    let exec = shell_job(alloc, "true", None)?;
    let bad = pair(
        alloc,
        exec,
        shell_job(alloc, "touch out; exit 7", Some("out"))?,
    )?;
    let status = ToolFault::Tool {
        step: 1,
        cause: ToolCause::Status(7),
    };
    assert_eq!(rt;
        run_chain(alloc, &mut tools, &mut folder, &bad),
        Err(status)
    );
    assert_eq!(rt; folder.size("out"), Ok(Some(0)));
    Ok(())
}
