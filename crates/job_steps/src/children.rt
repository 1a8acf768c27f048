//! The children of a job: those that make its file, and those that are run for it.
ghost use Rattle.std.specs.Prelude.{◌≡◌, ◌∷◌, [], IfOk, map};
ghost use Rattle.tool_chain.specs.Jobs.{job_of};
ghost use Rattle.job_steps.specs.Steps as spec;
ghost use Rattle.job_steps.specs.Views.{plain_step};

use crate::args::{shell_args, step_args};
use crate::steps::Step;
use info_item::Format;
use job_names::output_name;
use std::alloc::Global;
use text_base::{OutOfMemory, Text};
use tool_chain::ToolJob;

/// One text.
fn alone(alloc: Global, text: Text) -> Result<Vec<Text>, OutOfMemory>
    ensures { IfOk result (λ v. v.items ≡ text ∷ []) }
{
    let mut texts = Vec::with_capacity(alloc, 1)?;
    texts.push(text)?;
    Ok(texts)
}

/// Copies of texts.
pub(crate) fn copies(alloc: Global, texts: &[Text]) -> Result<Vec<Text>, OutOfMemory>
    ensures { IfOk result (λ v. v.items ≡ texts.now) }
{
    let mut all = Vec::with_capacity(alloc, texts.len())?;
    for text in texts {
        all.push(Text::new(alloc, text.as_str())?)?;
    }
    Ok(all)
}

/// The child of a step.
fn step_command(
    alloc: Global,
    tool: &str,
    parts: &[&Format<'_>],
    inputs: Vec<Text>,
    step: &Step<'_>,
    output: &str,
) -> Result<ToolJob, OutOfMemory>
    ensures { IfOk result (λ j. job_of j
        ≡ spec.step_command tool.now (map (λ f. f.now) parts.now) inputs.items (plain_step step.now).change output.now) }
{
    Ok(ToolJob {
        program: Text::new(alloc, tool)?,
        args: step_args(alloc, parts, &inputs, step.change, output)?,
        inputs,
        output: Some(Text::new(alloc, output)?),
    })
}

/// The children of steps. The first reads these names, and each other the output before it.
pub fn commands(
    alloc: Global,
    tool: &str,
    parts: &[&Format<'_>],
    stem: &str,
    fetched: &[Text],
    steps: &[Step<'_>],
) -> Result<Vec<ToolJob>, OutOfMemory>
    ensures { IfOk result (λ v. map job_of v.items
        ≡ spec.commands tool.now (map (λ f. f.now) parts.now) stem.now 1 fetched.now (map plain_step steps.now)) }
{
    let mut all = Vec::with_capacity(alloc, steps.len())?;
    let mut inputs = copies(alloc, fetched)?;
    for (place, step) in steps.iter().enumerate() {
        let output = output_name(alloc, stem, place + 1, step.ext)?;
        all.push(step_command(alloc, tool, parts, inputs, step, output.as_str())?)?;
        inputs = alone(alloc, output)?;
    }
    Ok(all)
}

/// The child of a command that is run for a finished file.
fn exec_command(alloc: Global, final_name: &str, line: &str) -> Result<ToolJob, OutOfMemory>
    ensures { IfOk result (λ j. job_of j ≡ spec.exec_command final_name.now line.now) }
{
    Ok(ToolJob {
        program: Text::new(alloc, "sh")?,
        args: shell_args(alloc, line)?,
        inputs: alone(alloc, Text::new(alloc, final_name)?)?,
        output: None,
    })
}

/// The children of commands that are run for a finished file.
pub fn exec_commands(
    alloc: Global,
    final_name: &str,
    lines: &[Text],
) -> Result<Vec<ToolJob>, OutOfMemory>
    ensures { IfOk result (λ v. map job_of v.items ≡ map (spec.exec_command final_name.now) lines.now) }
{
    let mut all = Vec::with_capacity(alloc, lines.len())?;
    for line in lines {
        all.push(exec_command(alloc, final_name, line.as_str())?)?;
    }
    Ok(all)
}
