ghost use Rattle.folder_base.specs.Parts.{AreApart, AreApart-prop};

use crate::replay::{Replay, make_all};
use crate::rounds::{make_round, part_steps};
use crate::step::Step;
use std::alloc::Global;
use text_base::{OutOfMemory, Text};

/// A time with parts out, and the steps from the `gather` before it on.
#[derive(Drop)]
pub(crate) struct Round {
    pub(crate) before: Vec<Step>,
    pub(crate) stems: Vec<Text>,
    /// What the folder did while its parts were out.
    pub(crate) rest: Vec<Step>,
    /// What each part did.
    pub(crate) parts: Vec<Vec<Step>>,
    ghost apart: { AreApart stems.items } by { AreApart-prop stems.items },
}

impl Round {
    ghost use Rattle.std.specs.Prelude.{OnOk};
    ghost use Rattle.folder_base.specs.Log.{Chapter, after_round};
    ghost use Rattle.folder_base.specs.Undo.{IsReplayed};

    /// Makes its steps again.
    pub(crate) fn make(&self, alloc: Global, replay: &mut Replay) -> Result<(), OutOfMemory>
        ensures { OnOk result
            ((chapter : Chapter) → IsReplayed chapter.story.now replay.old
            → IsReplayed (after_round chapter self.now).story.now replay.new) }
    {
        make_all(alloc, replay, &self.before)?;
        let parts = part_steps(alloc, &self.parts)?;
        make_round(alloc, replay, &self.stems, &self.rest, &parts)?;
        Ok(())
    }
}
