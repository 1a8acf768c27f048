ghost use Rattle.std.specs.Prelude.{◌≡◌, IfOk};
ghost use Rattle.tool_chain.specs.Jobs.{job_of};

use crate::job::ToolJob;
use std::alloc::Global;
use text_base::{OutOfMemory, Text};

/// A run of a child in memory.
#[derive(Drop)]
pub struct ToolRun {
    pub job: ToolJob,
    /// The bytes of each input as it began; None where it did not stand or could not be read.
    pub inputs: Vec<Option<Vec<u8>>>,
    /// None where it did not start.
    pub status: Option<u8>,
    /// Whether its output stood as it ended.
    pub left: bool,
}

/// A copy of a job.
pub(crate) fn copy_job(alloc: Global, job: &ToolJob) -> Result<ToolJob, OutOfMemory>
    ensures { IfOk result (λ copy. job_of copy ≡ job_of job.now) }
{
    let output = match &job.output {
        Some(output) => Some(Text::new(alloc, output.as_str())?),
        None => None,
    };
    Ok(ToolJob {
        program: Text::new(alloc, job.program.as_str())?,
        args: copy_all(alloc, &job.args)?,
        inputs: copy_all(alloc, &job.inputs)?,
        output,
    })
}

/// A copy of each text.
fn copy_all(alloc: Global, texts: &Vec<Text>) -> Result<Vec<Text>, OutOfMemory>
    ensures { IfOk result (λ copies. copies.items ≡ texts.now.items) }
{
    let mut copies = Vec::with_capacity(alloc, texts.len())?;
    for text in texts {
        copies.push(Text::new(alloc, text.as_str())?)?;
    }
    Ok(copies)
}
