//! What is said of entries, chunk by chunk.

ghost use Rattle.std.specs.Prelude.{◌≡◌, ◌++◌, IfOk, OnOk, map};
ghost use Rattle.std.specs.String.{string_bytes};
ghost use Rattle.job_plan.specs.Views.{plain_entry, plain_job};
ghost use Rattle.ytdl_core.specs.Chunks.{script_of};
ghost use Rattle.ytdl_core.specs.Lines.{all_to, each_line, job_lines, own_line, said, said_of};
ghost use Rattle.ytdl_core.specs.Report.{simulated_end};

use crate::fault_line::job_text;
use crate::run_fault::Which;
use job_plan::{Job, JobOr};
use std::alloc::{AllocError, Global};
use text_base::{OutOfMemory, Text};

/// Bytes for one of the sinks.
#[derive(Drop)]
pub struct Chunk {
    pub which: Which,
    pub bytes: String,
}

/// What is said of entries that are not downloaded, in as few chunks as keep their order.
pub fn chunks(alloc: Global, quiet: bool, entries: &[JobOr]) -> Result<Vec<Chunk>, OutOfMemory>
    ensures { IfOk result (λ chunks. script_of chunks.items ≡
        said quiet (map plain_entry entries.now) (map simulated_end (map plain_entry entries.now))) }
{
    let mut chunks = Vec::new(alloc);
    for entry in entries {
        let chunk = chunk_of(alloc, quiet, entry)?;
        add(&mut chunks, chunk)?;
    }
    Ok(chunks)
}

/// Puts a chunk behind others: to the last of them, where that goes to the same sink.
fn add(chunks: &mut Vec<Chunk>, chunk: Chunk) -> Result<(), OutOfMemory>
    ensures { OnOk result (script_of chunks.new.items ≡
        script_of chunks.old.items ++ all_to chunk.which (string_bytes chunk.bytes)) }
{
    let Some(mut last) = chunks.pop() else {
        chunks.push(chunk)?;
        return Ok(());
    };
    if last.which != chunk.which {
        chunks.push(last)?;
        chunks.push(chunk)?;
        return Ok(());
    }
    last.bytes.push_str(chunk.bytes.as_str())?;
    chunks.push(last)?;
    Ok(())
}

/// What is said of an entry that is not downloaded.
fn chunk_of(alloc: Global, quiet: bool, entry: &JobOr) -> Result<Chunk, OutOfMemory>
    ensures { IfOk result (λ chunk. all_to chunk.which (string_bytes chunk.bytes) ≡
        said_of quiet (plain_entry entry.now) (simulated_end (plain_entry entry.now)).end) }
{
    match entry {
        JobOr::Job(job) => Ok(Chunk {
            which: Which::Out,
            bytes: job_lines(alloc, quiet, job)?,
        }),
        JobOr::Fault { item, fault } => {
            let number = *item as u128 + 1;
            let text = job_text(*fault);
            Ok(Chunk {
                which: Which::Err,
                bytes: format!(in alloc; "ERROR: item {number}: {text}\n")?,
            })
        }
    }
}

/// The texts of a job, each on a line, and its name as simulated where the run is not quiet.
fn job_lines(alloc: Global, quiet: bool, job: &Job) -> Result<String, AllocError>
    ensures { IfOk result (λ lines. string_bytes lines ≡ job_lines quiet (plain_job job.now)) }
{
    let mut lines = String::new(alloc);
    push_lines(&mut lines, &job.printed)?;
    if quiet {
        return Ok(lines);
    }
    lines.push_str("[simulate] ")?;
    push_line(&mut lines, job.final_name.as_str())?;
    Ok(lines)
}

fn push_lines(lines: &mut String, texts: &[Text]) -> Result<(), AllocError>
    ensures { OnOk result (string_bytes lines.new ≡ string_bytes lines.old ++ each_line texts.now) }
{
    for text in texts {
        push_line(lines, text.as_str())?;
    }
    Ok(())
}

fn push_line(lines: &mut String, text: &str) -> Result<(), AllocError>
    ensures { OnOk result (string_bytes lines.new ≡ string_bytes lines.old ++ own_line text.now) }
{
    lines.push_str(text)?;
    lines.push_str("\n")
}
