//! A folder's files and steps, with the parts that it has handed out.
ghost use Rattle.folder_base.specs.Merge.{IsIndexed, HasRoom, HasNone, HasPlaces};
ghost use Rattle.folder_base.specs.Places.{ArePlaced-prop};
ghost use Rattle.std.specs.Prelude.{◌≡◌, ◌≢◌, [], None};
ghost use Rattle.folder_base.specs.Lines.{start, HasOwn};
ghost use Rattle.folder_base.specs.Merge.{MergesShared};
ghost use Rattle.folder_base.specs.Steps.{Agrees};
ghost use Rattle.folder_base.specs.Tale.{all_handed, still_out, new_tale};
ghost use Rattle.folder_base.specs.declared.side.Side.TheVariants.{Rest};

use crate::file::File;
use crate::files::{Files, store_all};
use crate::index::{Index, find_part, index_of};
use crate::line::Line;
use crate::log::Log;
use crate::merge::merge;
use crate::place::Place;
use crate::plan::Plan;
use crate::replay::Replay;
use crate::rounds::{make_round, place_steps};
use crate::side::Side;
use crate::step::Step;
use std::alloc::Global;
use std::collections::BTreeMap;
use std::sync::Arc;
use text_base::{OutOfMemory, Text};

/// The files and steps of a folder, or of a part, and the places of the parts that are out.
#[derive(Drop)]
pub(crate) struct Content {
    pub(crate) line: Line,
    /// Which part answers for a name, where parts were handed out.
    pub(crate) index: Index,
    /// What the parts have left that are back, in the order of their stems.
    pub(crate) places: Vec<Place>,
    ghost indexed: { IsIndexed line.log.value line.side index },
    ghost none: { HasNone line.side places },
    ghost room: { HasRoom line.log.value line.side places },
    ghost placed: { HasPlaces line.log.value places } by { ArePlaced-prop (all_handed line.log.value) places.items },
}

impl Content {
    ghost use Rattle.std.specs.Prelude.{IsTrue, OnOk, IfOk};
    ghost use Rattle.folder_base.specs.Content.{content_tale, content_owns, ContentSteps, FansOut, IsNext, Splits, TakesBack};
    ghost use Rattle.folder_base.specs.Disk.{created, appended, cut_to, synced, renamed, removed, settled};
    ghost use Rattle.folder_base.specs.Files.{names_of};
    ghost use Rattle.folder_base.specs.Log.{stood};
    ghost use Rattle.folder_base.specs.Parts.{AreApart};
    ghost use Rattle.folder_base.specs.Merge.{IsMerged};
    ghost use Rattle.folder_base.specs.Steps.{is_there, is_free, is_any};
    ghost use Rattle.folder_base.specs.Stop.{stopped};
    ghost use Rattle.folder_base.specs.Undo.{IsReplayed};

    /// A folder with these files, their bytes lasting.
    pub(crate) fn new(alloc: Global, files: Vec<File>, plan: Plan) -> Result<Content, OutOfMemory>
        ensures plan { IfOk result (λ content. content.line.log.value.plan ≡ plan) }
        ensures tale { IfOk result
            (λ content. content_tale content ≡ new_tale (stood (λ _. None) files.items)) }
    {
        let stored = store_all(alloc, &files)?;
        let log = Log {
            plan,
            birth: files,
            rounds: Vec::new(alloc),
            steps: Vec::new(alloc),
            stems: Vec::new(alloc),
        };
        Ok(Content::of(
            alloc,
            Line {
                log: Arc::new(alloc, log)?,
                side: Side::All,
                steps: Vec::new(alloc),
                files: stored,
            },
        ))
    }

    /// Where no part is out or back.
    pub(crate) fn of(alloc: Global, line: Line) -> Content
        requires { line.side ≢ Rest }
        ensures line { result.line ≡ line }
        ensures places { result.places.items ≡ [] }
    {
        Content {
            line,
            index: BTreeMap::new(alloc),
            places: Vec::new(alloc),
        }
    }

    /// The files among which a name of the folder's own stands.
    pub(crate) fn files_for(&self, name: &str) -> &Files
        ensures { names_of result.now name.now ≡ (content_tale self.now).story.now.live name.now }
    {
        match self.line.side {
            Side::Rest => self.files_of_all(name),
            _ => &self.line.files,
        }
    }

    // The same, where parts were handed out.
    fn files_of_all(&self, name: &str) -> &Files
        requires { self.now.line.side ≡ Rest }
        ensures { names_of result.now name.now ≡ (content_tale self.now).story.now.live name.now }
    {
        match find_part(&self.index, name) {
            Some(at) => {
                if at < self.places.len() {
                    &self.places[at].files
                } else {
                    &self.line.files
                }
            }
            None => &self.line.files,
        }
    }

    // Whether there is something to merge.
    fn is_split(&self) -> bool
        ensures { Splits self.now result }
    {
        match self.line.side {
            Side::Rest => !self.places.is_empty() || self.line.log.stems.is_empty(),
            _ => false,
        }
    }

    /// Merges the parts that are back.
    pub(crate) fn merge(&mut self, alloc: Global) -> Result<(), OutOfMemory>
        ensures merged { OnOk result
            (IsMerged self.new.line.log.value self.new.line.side self.new.places) }
        ensures same { content_tale self.new ≡ content_tale self.old }
        ensures plan { self.new.line.log.value.plan ≡ self.old.line.log.value.plan }
    {
        if !self.is_split() {
            return Ok(());
        }
        merge_shared(
            alloc,
            &mut self.line.log,
            &mut self.line.side,
            &mut self.line.steps,
            &mut self.line.files,
            &mut self.places,
        )
    }

    /// Hands out a line for each stem, and keeps the other names.
    pub(crate) fn fan(&mut self, alloc: Global, stems: &Vec<Text>) -> Result<Vec<Line>, OutOfMemory>
        requires no_part { (content_tale self.old).part ≡ None }
        requires none_out { (content_tale self.old).out ≡ [] }
        requires apart { AreApart stems.now.items }
        ensures { FansOut stems.now.items self.old self.new result }
    {
        self.merge(alloc)?;
        let index = index_of(alloc, stems)?;
        let places = Vec::with_capacity(alloc, stems.len())?;
        self.index = index;
        self.places = places;
        self.line.hand_out(alloc, stems, &self.index)
    }

    /// Puts what a part that is back has left into its place.
    pub(crate) fn take_back(&mut self, part: Content)
        requires { IsNext self.old.line.log.value self.old.line.side self.old.places.items part.line }
        ensures { TakesBack self.old part.line.steps.items self.new }
    {
        let Content { line, .. } = part;
        let Line { steps, files, .. } = line;
        let _ = self.places.push(Place { steps, files });
    }

    // Makes all steps again.
    fn replay(&self, alloc: Global) -> Result<Replay, OutOfMemory>
        ensures { IfOk result (λ replay. IsReplayed (content_tale self.now).story.now replay) }
    {
        match self.line.side {
            Side::Rest => {
                let log = &self.line.log;
                let mut replay = log.replay(alloc)?;
                let parts = place_steps(alloc, &self.places)?;
                make_round(alloc, &mut replay, &log.stems, &self.line.steps, &parts)?;
                Ok(replay)
            }
            _ => self.line.replay(alloc),
        }
    }

    /// What a stop leaves of the files, where the first `kept` unsettled name changes hold.
    pub(crate) fn stop(&self, alloc: Global, kept: u64, fill: u8) -> Result<Vec<File>, OutOfMemory>
        ensures { IfOk result
            (λ files. stood (λ _. None) files.items
            ≡ stopped kept fill (content_tale self.now).story.now) }
    {
        self.replay(alloc)?.stop(alloc, kept, fill)
    }

    /// Makes an empty file. Answers whether the name was free.
    pub(crate) fn create(&mut self, alloc: Global, name: &str) -> Result<bool, OutOfMemory>
        requires { IsTrue (content_owns self.old name.now) }
        ensures { ContentSteps (is_free name.now) (created name.now) self.old self.new result }
    {
        self.merge(alloc)?;
        self.line.create(alloc, name)
    }

    /// Puts bytes behind a file's end. Answers whether the name stands.
    pub(crate) fn append(
        &mut self,
        alloc: Global,
        name: &str,
        bytes: &[u8],
    ) -> Result<bool, OutOfMemory>
        requires { IsTrue (content_owns self.old name.now) }
        ensures { ContentSteps (is_there name.now) (appended name.now bytes.now) self.old self.new result }
    {
        self.merge(alloc)?;
        self.line.append(alloc, name, bytes)
    }

    /// Shortens a file. Answers whether the name stands.
    pub(crate) fn cut(&mut self, alloc: Global, name: &str, len: u64) -> Result<bool, OutOfMemory>
        requires { IsTrue (content_owns self.old name.now) }
        ensures { ContentSteps (is_there name.now) (cut_to name.now len) self.old self.new result }
    {
        self.merge(alloc)?;
        self.line.cut(alloc, name, len)
    }

    /// Makes a file's bytes lasting. Answers whether the name stands.
    pub(crate) fn sync(&mut self, alloc: Global, name: &str) -> Result<bool, OutOfMemory>
        requires { IsTrue (content_owns self.old name.now) }
        ensures { ContentSteps (is_there name.now) (synced name.now) self.old self.new result }
    {
        self.merge(alloc)?;
        self.line.sync(alloc, name)
    }

    /// Gives a file another name. Answers whether its name stood.
    pub(crate) fn rename(
        &mut self,
        alloc: Global,
        from: &str,
        to: &str,
    ) -> Result<bool, OutOfMemory>
        requires from_own { IsTrue (content_owns self.old from.now) }
        requires to_own { IsTrue (content_owns self.old to.now) }
        ensures { ContentSteps (is_there from.now) (renamed from.now to.now) self.old self.new result }
    {
        self.merge(alloc)?;
        self.line.rename(alloc, from, to)
    }

    /// Removes a file. Answers whether the name stood.
    pub(crate) fn remove(&mut self, alloc: Global, name: &str) -> Result<bool, OutOfMemory>
        requires { IsTrue (content_owns self.old name.now) }
        ensures { ContentSteps (is_there name.now) (removed name.now) self.old self.new result }
    {
        self.merge(alloc)?;
        self.line.remove(alloc, name)
    }

    /// Makes the name changes so far lasting.
    pub(crate) fn settle(&mut self, alloc: Global) -> Result<bool, OutOfMemory>
        ensures { ContentSteps is_any settled self.old self.new result }
    {
        self.merge(alloc)?;
        self.line.settle()
    }
}

// As `merge`, where nothing else holds the log, as is so once all parts are back.
fn merge_shared(
    alloc: Global,
    log: &mut Arc<Log>,
    side: &mut Side,
    steps: &mut Vec<Step>,
    files: &mut Files,
    places: &mut Vec<Place>,
) -> Result<(), OutOfMemory>
    requires rest { side.old ≡ Rest }
    requires agrees { Agrees (start log.old.value Rest) steps.old.items files.old }
    requires own { HasOwn log.old.value Rest files.old }
    requires placed { HasPlaces log.old.value places.old }
    requires back { still_out places.old.items (all_handed log.old.value) ≡ [] }
    ensures { MergesShared log.old.value steps.old.items places.old files.old log.new.value side.new
        steps.new.items places.new files.new result }
{
    match Arc::get_mut(log) {
        Some(log) => {
            merge(alloc, log, steps, files, places)?;
            *side = Side::All;
            Ok(())
        }
        None => Err(OutOfMemory),
    }
}
