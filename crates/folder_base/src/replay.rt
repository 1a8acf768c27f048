//! Steps that are made again, so that it is known what a stop leaves of them.
ghost use Rattle.std.specs.Prelude.{◌≡◌, true, List, None, OnOk, IfOk, IsTrue, is_some, reverse};
ghost use Rattle.folder_base.specs.Disk.{Name, put};
ghost use Rattle.folder_base.specs.Files.{names_of};
ghost use Rattle.folder_base.specs.Index.{IsIndex, FindsPart};
ghost use Rattle.folder_base.specs.Log.{lasting, stood, told};
ghost use Rattle.folder_base.specs.Stop.{filled_names};
ghost use Rattle.folder_base.specs.Story.{Story};
ghost use Rattle.folder_base.specs.Undo.{IsReplayed, Replays, Joins, HoldsOnly, first_done};

use crate::change::Change;
use crate::explain::explain_all;
use crate::file::File;
use crate::files::{
    Files, copy_all, copy_files, cut_file, extend_file, put_file, store_all, sync_file,
};
use crate::index::Index;
use crate::owning::{are_names_of, are_undos_of};
use crate::retell::retell_all;
use crate::step::Step;
use crate::stored::Stored;
use crate::undo::Undo;
use std::alloc::Global;
use std::mem;
use text_base::{OutOfMemory, Text};

/// The files that some steps have made, and what undoes the unsettled name changes among the steps.
#[derive(Drop)]
pub(crate) struct Replay {
    pub(crate) files: Files,
    /// In the order of the changes.
    pub(crate) undos: Vec<Undo>,
    /// Whether some of them may be listed.
    pub(crate) listed: bool,
}

impl Replay {
    ghost use Rattle.std.specs.Prelude.{◌≢◌, Bool, false, [], ◌∷◌, option_map};
    ghost use Rattle.folder_base.specs.Disk.{Disk, Names, Spots, named, freed, renamed_apart};
    ghost use Rattle.folder_base.specs.Listing.{IsListed};
    ghost use Rattle.folder_base.specs.Log.{does};
    ghost use Rattle.folder_base.specs.Retold.{AreRetold, retold};
    ghost use Rattle.folder_base.specs.Stop.{stopped};
    ghost use Rattle.folder_base.specs.Stored.{file_of};
    ghost use Rattle.folder_base.specs.Undo.{ArePlain};

    /// Where no step was made yet.
    pub(crate) fn new(alloc: Global, birth: &Vec<File>) -> Result<Replay, OutOfMemory>
        ensures { IfOk result
            (λ replay. IsReplayed (lasting (stood (λ _. None) birth.now.items)) replay) }
    {
        Ok(Replay {
            files: store_all(alloc, birth)?,
            undos: Vec::new(alloc),
            listed: false,
        })
    }

    /// Takes what undoes its unsettled name changes, as lists of what the names had before each.
    pub(crate) fn explain(&mut self, alloc: Global) -> Result<Vec<Vec<Change>>, OutOfMemory>
        ensures all { IfOk result
            (λ all. (disk : Disk) → IsReplayed disk self.old → IsListed disk all.items) }
        ensures files { self.new.files ≡ self.old.files }
    {
        let undos = mem::replace(&mut self.undos, Vec::new(alloc));
        explain_all(alloc, &self.files, undos)
    }

    /// The files once the first `kept` of its unsettled name changes alone hold, each as long as it
    /// reads, its bytes that are not lasting being `fill`.
    pub(crate) fn stop(
        mut self,
        alloc: Global,
        kept: u64,
        fill: u8,
    ) -> Result<Vec<File>, OutOfMemory>
        ensures { IfOk result
            (λ files. (disk : Disk) → IsReplayed disk self
            → stood (λ _. None) files.items ≡ stopped kept fill disk) }
    {
        let live = copy_files(alloc, &self.files)?;
        undo_last(alloc, kept, &live, &mut self.undos, &mut self.files)?;
        filled_files(alloc, &self.files, fill)
    }

    /// Takes over what a part has done, none of whose names stands here or was changed.
    pub(crate) fn join(&mut self, alloc: Global, part: Replay) -> Result<(), OutOfMemory>
        ensures joined { OnOk result (Joins part self.old self.new) }
        ensures held { OnOk result
            ((mine : Name → Bool) → HoldsOnly (λ name. mine name ≡ true) part
            → HoldsOnly (λ name. mine name ≡ true) self.old
            → HoldsOnly (λ name. mine name ≡ true) self.new) }
    {
        let Replay {
            files,
            mut undos,
            listed,
        } = part;
        copy_all(alloc, &files, &mut self.files)?;
        self.undos.append(&mut undos)?;
        self.listed |= listed;
        Ok(())
    }

    /// Whether the part in this place answers for all its names, or no part where that is None.
    pub(crate) fn is_of(&self, index: &Index, place: Option<usize>) -> bool
        ensures { IsTrue result
            → (stems : List Name) → IsIndex stems index.now
            → HoldsOnly (λ name. FindsPart stems name place) self.now }
    {
        are_names_of(index, place, &self.files) && are_undos_of(index, place, &self.undos)
    }

    // Tells again what is listed, once `name` stands for another file than `file`, or for none: for that
    // of `from`, where it is given.
    fn retell(
        &mut self,
        alloc: Global,
        name: &str,
        file: &Option<Stored>,
        from: Option<&str>,
    ) -> Result<(), OutOfMemory>
        ensures files { OnOk result (self.new.files ≡ self.old.files) }
        ensures listed { OnOk result (self.new.listed ≡ self.old.listed) }
        ensures undos { OnOk result
            ((live : Names) → live name.now ≡ option_map file_of file.now
            → (self.old.listed ≡ false → ArePlain self.old.undos.items)
            → AreRetold (retold live name.now (option_map (λ text. text.now) from.entry))
            self.old.undos.items self.new.undos.items) }
    {
        if self.listed {
            let undos = mem::replace(&mut self.undos, Vec::new(alloc));
            self.undos = retell_all(alloc, undos, name, file, from)?;
        }
        Ok(())
    }

    // Puts a file, or none, under a name.
    fn put(&mut self, alloc: Global, name: &str, file: Option<Stored>) -> Result<(), OutOfMemory>
        ensures { (made : Spots → Spots)
            → Replays (λ disk. named (name.now ∷ []) (put disk.live name.now (option_map file_of file))
            (freed disk.live name.now) made disk) self.old self.new result }
    {
        let file = put_file(alloc, &mut self.files, name, file)?;
        self.retell(alloc, name, &file, None)?;
        let name = Text::new(alloc, name)?;
        self.undos.push(Undo::Freed { name, file })?;
        Ok(())
    }

    // Gives a file another name.
    fn rename(&mut self, alloc: Global, from: &str, to: &str) -> Result<(), OutOfMemory>
        requires { from.now ≢ to.now }
        ensures { Replays (renamed_apart from.now to.now) self.old self.new result }
    {
        let moved = put_file(alloc, &mut self.files, from, None)?;
        let file = put_file(alloc, &mut self.files, to, moved)?;
        self.retell(alloc, to, &file, Some(from))?;
        let from = Text::new(alloc, from)?;
        let to = Text::new(alloc, to)?;
        self.undos.push(Undo::Moved { from, to, file })?;
        Ok(())
    }

    // Makes one step more.
    fn make(&mut self, alloc: Global, step: &Step) -> Result<(), OutOfMemory>
        ensures { Replays (does step.now) self.old self.new result }
    {
        match step {
            Step::Created { name } => {
                self.put(alloc, name.as_str(), Some(Stored::empty(alloc)))?;
            }
            Step::Removed { name } => {
                self.put(alloc, name.as_str(), None)?;
            }
            Step::Renamed { from, to } => {
                if from.as_str() != to.as_str() {
                    self.rename(alloc, from.as_str(), to.as_str())?;
                }
            }
            Step::Appended { name, bytes } => {
                extend_file(&mut self.files, name.as_str(), bytes)?;
            }
            Step::Cut { name, len } => {
                cut_file(&mut self.files, name.as_str(), *len);
            }
            Step::Synced { name } => {
                sync_file(&mut self.files, name.as_str());
            }
            Step::Settled => {
                self.undos.clear();
                self.listed = false;
            }
        }
        Ok(())
    }
}

/// Makes these steps again.
pub(crate) fn make_all(
    alloc: Global,
    replay: &mut Replay,
    steps: &Vec<Step>,
) -> Result<(), OutOfMemory>
    ensures { OnOk result
        ((story : Story) → IsReplayed story.now replay.old
        → IsReplayed (told story steps.now.items).now replay.new) }
{
    for step in steps {
        replay.make(alloc, step)?;
    }
    Ok(())
}

/// Undoes all name changes but the first `kept`; `live` are the files before that.
pub(crate) fn undo_last(
    alloc: Global,
    kept: u64,
    live: &Files,
    undos: &mut Vec<Undo>,
    files: &mut Files,
) -> Result<(), OutOfMemory>
    ensures { OnOk result
        (names_of files.new
        ≡ first_done (names_of live.now) kept (reverse undos.old.items) (names_of files.old)) }
{
    while undos.len() as u64 > kept {
        let Some(undo) = undos.pop() else {
            break;
        };
        undo.undo(alloc, live, files)?;
    }
    Ok(())
}

/// These files, their bytes that are not lasting being `fill`.
pub(crate) fn filled_files(alloc: Global, files: &Files, fill: u8) -> Result<Vec<File>, OutOfMemory>
    ensures { IfOk result
        (λ filled. stood (λ _. None) filled.items ≡ filled_names fill (names_of files.now)) }
{
    let mut filled = Vec::new(alloc);
    for name in files.keys() {
        add_filled(alloc, files, name, fill, &mut filled)?;
    }
    Ok(filled)
}

// Puts the file of a name that stands behind the others.
fn add_filled(
    alloc: Global,
    files: &Files,
    name: &str,
    fill: u8,
    filled: &mut Vec<File>,
) -> Result<(), OutOfMemory>
    requires { is_some (names_of files.now name.now) ≡ true }
    ensures { OnOk result
        (stood (λ _. None) filled.new.items ≡ put (stood (λ _. None) filled.old.items) name.now
        (filled_names fill (names_of files.now) name.now)) }
{
    if let Some(file) = files.get(name) {
        let bytes = file.filled(alloc, fill)?;
        let name = Text::new(alloc, name)?;
        filled.push(File { name, bytes })?;
    }
    Ok(())
}
