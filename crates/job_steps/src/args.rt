//! Arguments of child tools.
ghost use Rattle.std.specs.Prelude.{◌≡◌, ◌∷◌, ◌++◌, [], OnOk, IfOk, codes, flat_map, map};
ghost use Rattle.job_steps.specs.Steps as spec;
ghost use Rattle.job_steps.specs.Views.{plain_change};

use crate::steps::Change;
use info_item::Format;
use std::alloc::Global;
use text_base::{OutOfMemory, Text};

/// Adds an argument.
fn push(alloc: Global, args: &mut Vec<Text>, arg: &str) -> Result<(), OutOfMemory>
    ensures { OnOk result (args.new.items ≡ args.old.items ++ arg.now ∷ []) }
{
    args.push(Text::new(alloc, arg)?)?;
    Ok(())
}

/// Adds a name. It begins with no hyphen.
fn push_path(alloc: Global, args: &mut Vec<Text>, name: &str) -> Result<(), OutOfMemory>
    ensures { OnOk result (args.new.items ≡ args.old.items ++ spec.path_arg name.now ∷ []) }
{
    args.push(Text::from(format!(in alloc; "./{name}")?))?;
    Ok(())
}

/// Adds the inputs.
fn push_inputs(alloc: Global, args: &mut Vec<Text>, inputs: &[Text]) -> Result<(), OutOfMemory>
    ensures { OnOk result (args.new.items ≡ args.old.items ++ flat_map spec.input_args inputs.now) }
{
    for input in inputs {
        push(alloc, args, "-i")?;
        push_path(alloc, args, input.as_str())?;
    }
    Ok(())
}

/// Adds the stream of an input, where it is there.
fn push_stream(
    alloc: Global,
    args: &mut Vec<Text>,
    there: bool,
    input: usize,
    kind: &str,
) -> Result<(), OutOfMemory>
    ensures { OnOk result (args.new.items ≡ args.old.items ++ spec.map_args there input kind.now) }
{
    if !there {
        return Ok(());
    }
    push(alloc, args, "-map")?;
    args.push(Text::from(format!(in alloc; "{input}{kind}")?))?;
    Ok(())
}

/// Adds the streams of parts.
fn push_streams(
    alloc: Global,
    args: &mut Vec<Text>,
    parts: &[&Format<'_>],
) -> Result<(), OutOfMemory>
    ensures { OnOk result (args.new.items ≡ args.old.items ++ spec.stream_args 0 (map (λ f. f.now) parts.now)) }
{
    for (input, part) in parts.iter().enumerate() {
        push_stream(alloc, args, part.has_video(), input, ":v:0")?;
        push_stream(alloc, args, part.has_audio(), input, ":a:0")?;
    }
    Ok(())
}

/// Adds that streams are copied.
fn push_copy(alloc: Global, args: &mut Vec<Text>) -> Result<(), OutOfMemory>
    ensures { OnOk result (args.new.items ≡ args.old.items ++ codes "-c" ∷ codes "copy" ∷ []) }
{
    push(alloc, args, "-c")?;
    push(alloc, args, "copy")
}

/// Adds what a step does.
fn push_change(
    alloc: Global,
    args: &mut Vec<Text>,
    parts: &[&Format<'_>],
    change: Change,
) -> Result<(), OutOfMemory>
    ensures { OnOk result (args.new.items ≡ args.old.items ++ spec.change_args (map (λ f. f.now) parts.now) (plain_change change)) }
{
    match change {
        Change::Merge => {
            push_streams(alloc, args, parts)?;
            push_copy(alloc, args)
        }
        Change::Copy => push_copy(alloc, args),
        Change::CodeAudio(coder) => {
            push(alloc, args, "-vn")?;
            push(alloc, args, "-c:a")?;
            push(alloc, args, coder)
        }
    }
}

/// The arguments of a step.
pub(crate) fn step_args(
    alloc: Global,
    parts: &[&Format<'_>],
    inputs: &[Text],
    change: Change,
    output: &str,
) -> Result<Vec<Text>, OutOfMemory>
    ensures { IfOk result (λ v. v.items ≡ spec.step_args (map (λ f. f.now) parts.now) inputs.now (plain_change change) output.now) }
{
    let mut args = Vec::new(alloc);
    push(alloc, &mut args, "-y")?;
    push_inputs(alloc, &mut args, inputs)?;
    push_change(alloc, &mut args, parts, change)?;
    push_path(alloc, &mut args, output)?;
    Ok(args)
}

/// The arguments of a shell for a command.
pub(crate) fn shell_args(alloc: Global, line: &str) -> Result<Vec<Text>, OutOfMemory>
    ensures { IfOk result (λ v. v.items ≡ codes "-c" ∷ line.now ∷ []) }
{
    let mut args = Vec::with_capacity(alloc, 2)?;
    push(alloc, &mut args, "-c")?;
    push(alloc, &mut args, line)?;
    Ok(args)
}
