//! The calls on files in memory, each with the step that it leaves.
ghost use Rattle.std.specs.Prelude.{take, length};
ghost use Rattle.folder_base.specs.Disk.{created, appended, cut_to, synced, renamed, removed, settled};
ghost use Rattle.folder_base.specs.Steps.{Steps, is_there, is_free, is_any};

use crate::files::{Files, create_file, cut_file, extend_file, move_file, remove_file, sync_file};
use crate::step::Step;
use std::alloc::Global;
use text_base::{OutOfMemory, Text};

/// Makes an empty file. Answers whether the name was free.
pub(crate) fn create_step(
    alloc: Global,
    steps: &mut Vec<Step>,
    files: &mut Files,
    name: &str,
) -> Result<bool, OutOfMemory>
    ensures { Steps (is_free name.now)
        (created name.now) steps.old.items files.old steps.new.items files.new result }
{
    if files.contains_key(name) {
        return Ok(false);
    }
    let before = steps.len();
    steps.push(Step::Created {
        name: Text::new(alloc, name)?,
    })?;
    match create_file(alloc, files, name) {
        Ok(()) => Ok(true),
        Err(refused) => {
            steps.truncate(before);
            Err(refused.into())
        }
    }
}

/// Puts bytes behind a file's end. Answers whether the name stands.
pub(crate) fn append_step(
    alloc: Global,
    steps: &mut Vec<Step>,
    files: &mut Files,
    name: &str,
    bytes: &[u8],
) -> Result<bool, OutOfMemory>
    ensures { Steps (is_there name.now)
        (appended name.now bytes.now) steps.old.items files.old steps.new.items files.new result }
{
    if !files.contains_key(name) {
        return Ok(false);
    }
    let before = steps.len();
    steps.push(Step::Appended {
        name: Text::new(alloc, name)?,
        bytes: bytes.to_vec(alloc)?,
    })?;
    match extend_file(files, name, bytes) {
        Ok(_) => Ok(true),
        Err(refused) => {
            steps.truncate(before);
            Err(refused.into())
        }
    }
}

/// Shortens a file. Answers whether the name stands.
pub(crate) fn cut_step(
    alloc: Global,
    steps: &mut Vec<Step>,
    files: &mut Files,
    name: &str,
    len: u64,
) -> Result<bool, OutOfMemory>
    ensures { Steps (is_there name.now)
        (cut_to name.now len) steps.old.items files.old steps.new.items files.new result }
{
    if !files.contains_key(name) {
        return Ok(false);
    }
    steps.push(Step::Cut {
        name: Text::new(alloc, name)?,
        len,
    })?;
    Ok(cut_file(files, name, len))
}

/// Makes a file's bytes lasting. Answers whether the name stands.
pub(crate) fn sync_step(
    alloc: Global,
    steps: &mut Vec<Step>,
    files: &mut Files,
    name: &str,
) -> Result<bool, OutOfMemory>
    ensures { Steps (is_there name.now)
        (synced name.now) steps.old.items files.old steps.new.items files.new result }
{
    if !files.contains_key(name) {
        return Ok(false);
    }
    steps.push(Step::Synced {
        name: Text::new(alloc, name)?,
    })?;
    Ok(sync_file(files, name))
}

/// Gives a file another name. Answers whether its name stood.
pub(crate) fn rename_step(
    alloc: Global,
    steps: &mut Vec<Step>,
    files: &mut Files,
    from: &str,
    to: &str,
) -> Result<bool, OutOfMemory>
    ensures { Steps (is_there from.now)
        (renamed from.now to.now) steps.old.items files.old steps.new.items files.new result }
{
    if !files.contains_key(from) {
        return Ok(false);
    }
    let before = steps.len();
    steps.push(Step::Renamed {
        from: Text::new(alloc, from)?,
        to: Text::new(alloc, to)?,
    })?;
    if from == to {
        return Ok(true);
    }
    match move_file(alloc, files, from, to) {
        Ok(_) => Ok(true),
        Err(refused) => {
            steps.truncate(before);
            Err(refused.into())
        }
    }
}

/// Removes a file. Answers whether the name stood.
pub(crate) fn remove_step(
    alloc: Global,
    steps: &mut Vec<Step>,
    files: &mut Files,
    name: &str,
) -> Result<bool, OutOfMemory>
    ensures { Steps (is_there name.now)
        (removed name.now) steps.old.items files.old steps.new.items files.new result }
{
    if !files.contains_key(name) {
        return Ok(false);
    }
    steps.push(Step::Removed {
        name: Text::new(alloc, name)?,
    })?;
    Ok(remove_file(files, name))
}

/// Makes the name changes so far lasting.
pub(crate) fn settle_step(steps: &mut Vec<Step>, files: &mut Files) -> Result<bool, OutOfMemory>
    ensures { Steps is_any settled steps.old.items files.old steps.new.items files.new result }
{
    let _ = files.len();
    steps.push(Step::Settled)?;
    Ok(true)
}
