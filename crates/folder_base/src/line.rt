//! The steps of some of a folder's names, and their files.
ghost use Rattle.std.specs.Prelude.{◌≡◌, ◌≢◌, []};
ghost use Rattle.folder_base.specs.Index.{IsIndex};
ghost use Rattle.folder_base.specs.Lines.{start, HasOwn};
ghost use Rattle.folder_base.specs.Logged.{IsSealed};
ghost use Rattle.folder_base.specs.Parts.{AreApart};
ghost use Rattle.folder_base.specs.declared.side.Side.TheVariants.{All, Rest};
ghost use Rattle.folder_base.specs.Steps.{Agrees};

use crate::files::Files;
use crate::index::Index;
use crate::log::Log;
use crate::part_lines::{copy_texts, leave_names, part_lines};
use crate::replay::{Replay, make_all};
use crate::rounds::part_of;
use crate::side::Side;
use crate::split::split_files;
use crate::step::Step;
use crate::steps::{
    append_step, create_step, cut_step, remove_step, rename_step, settle_step, sync_step,
};
use std::alloc::Global;
use std::sync::Arc;
use text_base::{OutOfMemory, Text};

/// What some of a folder's names have done since the end of a log, and their files as they are.
#[derive(Drop)]
pub(crate) struct Line {
    pub(crate) log: Arc<Log>,
    pub(crate) side: Side,
    pub(crate) steps: Vec<Step>,
    pub(crate) files: Files,
    ghost agrees: { Agrees (start log.value side) steps.items files },
    ghost own: { HasOwn log.value side files },
}

impl Line {
    ghost use Rattle.std.specs.Prelude.{IsTrue, IfOk};
    ghost use Rattle.folder_base.specs.Disk.{created, appended, cut_to, synced, renamed, removed, settled};
    ghost use Rattle.folder_base.specs.Line.{line_owns, line_names, line_story, AreLines, HandsOut, LineSteps};
    ghost use Rattle.folder_base.specs.Steps.{is_there, is_free, is_any};
    ghost use Rattle.folder_base.specs.Undo.{IsReplayed};

    /// Makes an empty file. Answers whether the name was free.
    pub(crate) fn create(&mut self, alloc: Global, name: &str) -> Result<bool, OutOfMemory>
        requires { IsTrue (line_owns self.old name.now) }
        ensures { LineSteps (is_free name.now) (created name.now) self.old self.new result }
    {
        create_step(alloc, &mut self.steps, &mut self.files, name)
    }

    /// Puts bytes behind a file's end. Answers whether the name stands.
    pub(crate) fn append(
        &mut self,
        alloc: Global,
        name: &str,
        bytes: &[u8],
    ) -> Result<bool, OutOfMemory>
        requires { IsTrue (line_owns self.old name.now) }
        ensures { LineSteps (is_there name.now) (appended name.now bytes.now) self.old self.new result }
    {
        append_step(alloc, &mut self.steps, &mut self.files, name, bytes)
    }

    /// Shortens a file. Answers whether the name stands.
    pub(crate) fn cut(&mut self, alloc: Global, name: &str, len: u64) -> Result<bool, OutOfMemory>
        requires { IsTrue (line_owns self.old name.now) }
        ensures { LineSteps (is_there name.now) (cut_to name.now len) self.old self.new result }
    {
        cut_step(alloc, &mut self.steps, &mut self.files, name, len)
    }

    /// Makes a file's bytes lasting. Answers whether the name stands.
    pub(crate) fn sync(&mut self, alloc: Global, name: &str) -> Result<bool, OutOfMemory>
        requires { IsTrue (line_owns self.old name.now) }
        ensures { LineSteps (is_there name.now) (synced name.now) self.old self.new result }
    {
        sync_step(alloc, &mut self.steps, &mut self.files, name)
    }

    /// Gives a file another name. Answers whether its name stood.
    pub(crate) fn rename(
        &mut self,
        alloc: Global,
        from: &str,
        to: &str,
    ) -> Result<bool, OutOfMemory>
        requires from_own { IsTrue (line_owns self.old from.now) }
        requires to_own { IsTrue (line_owns self.old to.now) }
        ensures { LineSteps (is_there from.now) (renamed from.now to.now) self.old self.new result }
    {
        rename_step(alloc, &mut self.steps, &mut self.files, from, to)
    }

    /// Removes a file. Answers whether the name stood.
    pub(crate) fn remove(&mut self, alloc: Global, name: &str) -> Result<bool, OutOfMemory>
        requires { IsTrue (line_owns self.old name.now) }
        ensures { LineSteps (is_there name.now) (removed name.now) self.old self.new result }
    {
        remove_step(alloc, &mut self.steps, &mut self.files, name)
    }

    /// Makes the name changes so far lasting.
    pub(crate) fn settle(&mut self) -> Result<bool, OutOfMemory>
        ensures { LineSteps is_any settled self.old self.new result }
    {
        settle_step(&mut self.steps, &mut self.files)
    }

    /// Makes its steps again.
    pub(crate) fn replay(&self, alloc: Global) -> Result<Replay, OutOfMemory>
        requires { self.now.side ≢ Rest }
        ensures { IfOk result (λ replay. IsReplayed (line_story self.now).now replay) }
    {
        match &self.side {
            Side::All => {
                let mut replay = self.log.replay(alloc)?;
                make_all(alloc, &mut replay, &self.steps)?;
                Ok(replay)
            }
            Side::Part { stem } => {
                let mut replay = part_of(alloc, self.log.replay(alloc)?, stem)?;
                make_all(alloc, &mut replay, &self.steps)?;
                Ok(replay)
            }
            Side::Rest => unreachable!(),
        }
    }

    /// Moves its steps into the log, before parts with these stems are handed out.
    pub(crate) fn seal(&mut self, stems: Vec<Text>) -> Result<(), OutOfMemory>
        requires all { self.old.side ≡ All }
        requires apart { AreApart stems.items }
        ensures sealed { IsSealed stems.items self.old.log.value self.old.steps.items
            self.new.log.value self.new.steps.items result }
        ensures side { self.new.side ≡ self.old.side }
        ensures files { self.new.files ≡ self.old.files }
    {
        seal_shared(&mut self.log, &mut self.steps, stems)
    }

    /// Leaves the names of these lines' parts to them.
    fn leave(&mut self, lines: &Vec<Line>)
        requires all { self.old.side ≡ All }
        requires steps { self.old.steps.items ≡ [] }
        requires lines { AreLines self.old.log.value self.old.log.value.stems.items lines.now.items }
        ensures side { self.new.side ≡ Rest }
        ensures log { self.new.log ≡ self.old.log }
        ensures steps { self.new.steps ≡ self.old.steps }
    {
        leave_names(&mut self.side, &mut self.files, lines);
    }

    /// Hands out a line for each stem, and keeps the other names.
    pub(crate) fn hand_out(
        &mut self,
        alloc: Global,
        stems: &Vec<Text>,
        index: &Index,
    ) -> Result<Vec<Line>, OutOfMemory>
        requires all { self.old.side ≡ All }
        requires indexed { IsIndex stems.now.items index.now }
        requires apart { AreApart stems.now.items }
        ensures { HandsOut stems.now.items self.old self.new result }
    {
        let split = split_files(alloc, &self.files, index, stems)?;
        self.seal(copy_texts(alloc, stems)?)?;
        let lines = part_lines(alloc, &self.log, stems, split)?;
        self.leave(&lines);
        Ok(lines)
    }
}

// As `Log::seal`, where nothing else holds the log, as is so once all parts are back.
fn seal_shared(
    log: &mut Arc<Log>,
    steps: &mut Vec<Step>,
    stems: Vec<Text>,
) -> Result<(), OutOfMemory>
    requires { AreApart stems.items }
    ensures { IsSealed stems.items log.old.value steps.old.items log.new.value steps.new.items
        result }
{
    match Arc::get_mut(log) {
        Some(log) => log.seal(steps, stems),
        None => Err(OutOfMemory),
    }
}
