ghost use Rattle.folder_base.specs.Parts.{AreApart, AreApart-prop};

use crate::file::File;
use crate::plan::Plan;
use crate::replay::{Replay, make_all};
use crate::round::Round;
use crate::step::Step;
use std::alloc::Global;
use std::mem;
use text_base::{OutOfMemory, Text};

/// What a folder has done until its parts were handed out last.
#[derive(Drop)]
pub(crate) struct Log {
    pub(crate) plan: Plan,
    pub(crate) birth: Vec<File>,
    pub(crate) rounds: Vec<Round>,
    /// The steps behind the last round.
    pub(crate) steps: Vec<Step>,
    /// The parts that were handed out then.
    pub(crate) stems: Vec<Text>,
    ghost apart: { AreApart stems.items } by { AreApart-prop stems.items },
}

impl Log {
    ghost use Rattle.std.specs.Prelude.{◌<◌, map, vec_len, vec_capacity};
    ghost use Rattle.std.specs.Prelude.{IfOk};
    ghost use Rattle.folder_base.specs.Log.{log_story};
    ghost use Rattle.folder_base.specs.Logged.{IsSealed, IsClosed};
    ghost use Rattle.folder_base.specs.Undo.{IsReplayed};

    /// Takes these steps over, before parts with these stems are handed out.
    pub(crate) fn seal(
        &mut self,
        steps: &mut Vec<Step>,
        stems: Vec<Text>,
    ) -> Result<(), OutOfMemory>
        requires { AreApart stems.items }
        ensures { IsSealed stems.items self.old steps.old.items self.new steps.new.items result }
    {
        self.steps.append(steps)?;
        self.stems = stems;
        Ok(())
    }

    /// Ends a round, in which the folder and its parts made these steps.
    pub(crate) fn close(&mut self, alloc: Global, rest: Vec<Step>, parts: Vec<Vec<Step>>)
        requires { vec_len self.old.rounds < vec_capacity self.old.rounds }
        ensures { IsClosed rest.items (map (λ steps. steps.items) parts.items) self.old self.new }
    {
        let before = mem::replace(&mut self.steps, Vec::new(alloc));
        let stems = mem::replace(&mut self.stems, Vec::new(alloc));
        let _ = self.rounds.push(Round {
            before,
            stems,
            rest,
            parts,
        });
    }

    /// Makes its steps again.
    pub(crate) fn replay(&self, alloc: Global) -> Result<Replay, OutOfMemory>
        ensures { IfOk result (λ replay. IsReplayed (log_story self.now).now replay) }
    {
        let mut replay = Replay::new(alloc, &self.birth)?;
        for round in &self.rounds {
            round.make(alloc, &mut replay)?;
        }
        make_all(alloc, &mut replay, &self.steps)?;
        Ok(replay)
    }
}
