//! The lines of parts that are handed out.
ghost use Rattle.std.specs.Prelude.{◌≡◌, ◌≢◌, IfOk};
ghost use Rattle.folder_base.specs.Files.{names_of};
ghost use Rattle.folder_base.specs.Line.{line_tale, line_names, AreLines};
ghost use Rattle.folder_base.specs.Log.{log_story};
ghost use Rattle.folder_base.specs.Split.{part_names, without_all, AreSplit};
ghost use Rattle.folder_base.specs.Tale.{part_tale};
ghost use Rattle.folder_base.specs.declared.side.Side.TheVariants.{Rest};

use crate::files::{Files, remove_all};
use crate::line::Line;
use crate::log::Log;
use crate::side::Side;
use std::alloc::Global;
use std::sync::Arc;
use text_base::{OutOfMemory, Text};

/// The line of the part with this stem, which has these files.
pub(crate) fn part_line(
    alloc: Global,
    log: &Arc<Log>,
    stem: &Text,
    files: Files,
) -> Result<Line, OutOfMemory>
    requires { names_of files ≡ part_names stem.now (log_story log.now.value).now.live }
    ensures tale { IfOk result
        (λ line. line_tale line ≡ part_tale (log_story log.now.value).now stem.now) }
    ensures plan { IfOk result (λ line. line.log.value.plan ≡ log.now.value.plan) }
    ensures part { IfOk result (λ line. line.side ≢ Rest) }
    ensures files { IfOk result (λ line. line.files ≡ files) }
{
    Ok(Line {
        log: Arc::try_clone(log)?,
        side: Side::Part {
            stem: Text::new(alloc, stem.as_str())?,
        },
        steps: Vec::new(alloc),
        files,
    })
}

/// A line for each part.
pub(crate) fn part_lines(
    alloc: Global,
    log: &Arc<Log>,
    stems: &Vec<Text>,
    split: Vec<Files>,
) -> Result<Vec<Line>, OutOfMemory>
    requires { AreSplit stems.now.items (log_story log.now.value).now.live split.items }
    ensures { IfOk result
        (λ lines. AreLines log.now.value stems.now.items lines.items) }
{
    let mut lines = Vec::with_capacity(alloc, stems.len())?;
    for files in split {
        let at = lines.len();
        if at < stems.len() {
            lines.push(part_line(alloc, log, &stems[at], files)?)?;
        }
    }
    Ok(lines)
}

/// Removes from `files` all names that stand in these lines.
pub(crate) fn remove_lines(lines: &Vec<Line>, files: &mut Files)
    ensures { names_of files.new ≡ without_all (line_names lines.now.items) (names_of files.old) }
{
    for line in lines {
        remove_all(&line.files, files);
    }
}

// All names are told of until now, and the rest from now on.
pub(crate) fn leave_names(side: &mut Side, files: &mut Files, lines: &Vec<Line>)
    ensures side { side.new ≡ Rest }
    ensures files { names_of files.new ≡ without_all (line_names lines.now.items)
        (names_of files.old) }
{
    remove_lines(lines, files);
    *side = Side::Rest;
}

/// Copies of these texts.
pub(crate) fn copy_texts(alloc: Global, texts: &Vec<Text>) -> Result<Vec<Text>, OutOfMemory>
    ensures { IfOk result (λ copies. copies.items ≡ texts.now.items) }
{
    let mut copies = Vec::with_capacity(alloc, texts.len())?;
    for text in texts {
        copies.push(Text::new(alloc, text.as_str())?)?;
    }
    Ok(copies)
}
