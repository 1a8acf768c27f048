//! What a folder and its parts have as the parts are handed out.
ghost use Rattle.std.specs.Prelude.{◌≡◌, List, IfOk, map};
ghost use Rattle.folder_base.specs.Disk.{Name, Disk};
ghost use Rattle.folder_base.specs.Files.{names_of};
ghost use Rattle.folder_base.specs.Handing.{AreStarts};
ghost use Rattle.folder_base.specs.Index.{IsIndex};
ghost use Rattle.folder_base.specs.Listing.{IsListed};
ghost use Rattle.folder_base.specs.Parts.{AreApart, outside};
ghost use Rattle.folder_base.specs.Split.{AreSplit, without_all};
ghost use Rattle.folder_base.specs.Undo.{IsReplayed};

use crate::change::Change;
use crate::files::{Files, remove_all};
use crate::index::Index;
use crate::own::own_undos;
use crate::parting::split_undos;
use crate::replay::Replay;
use crate::split::split_files;
use std::alloc::Global;
use text_base::{OutOfMemory, Text};

/// Each part as it is handed out, and the other names alone.
pub(crate) fn hand_out(
    alloc: Global,
    replay: &mut Replay,
    index: &Index,
    stems: &Vec<Text>,
) -> Result<Vec<Replay>, OutOfMemory>
    requires indexed { IsIndex stems.now.items index.now }
    requires apart { AreApart stems.now.items }
    ensures starts { IfOk result
        (λ starts. (disk : Disk) → IsReplayed disk replay.old
        → AreStarts stems.now.items disk starts.items) }
    ensures rest { IfOk result
        (λ starts. (disk : Disk) → IsReplayed disk replay.old
        → IsReplayed (outside stems.now.items disk) replay.new) }
{
    let all = replay.explain(alloc)?;
    let split = split_files(alloc, &replay.files, index, stems)?;
    let undos = own_undos(alloc, index, None, &replay.files, &all)?;
    let starts = start_all(alloc, &replay.files, &all, index, split)?;
    remove_starts(&starts, &mut replay.files);
    replay.listed = !undos.is_empty();
    replay.undos = undos;
    Ok(starts)
}

// The parts that have these files, where all names had these files before.
fn start_all(
    alloc: Global,
    live: &Files,
    all: &Vec<Vec<Change>>,
    index: &Index,
    split: Vec<Files>,
) -> Result<Vec<Replay>, OutOfMemory>
    ensures { IfOk result
        (λ starts. (stems : List Name) (disk : Disk) → IsIndex stems index.now → AreApart stems
        → names_of live.now ≡ disk.live → IsListed disk all.now.items
        → AreSplit stems disk.live split.items → AreStarts stems disk starts.items) }
{
    let lists = split_undos(alloc, index, live, all, split.len())?;
    let mut starts = Vec::with_capacity(alloc, split.len())?;
    for (files, undos) in split.into_iter().zip(lists) {
        let listed = !undos.is_empty();
        starts.push(Replay {
            files,
            undos,
            listed,
        })?;
    }
    Ok(starts)
}

// Removes from `files` all names that stand in these.
fn remove_starts(starts: &Vec<Replay>, files: &mut Files)
    ensures { names_of files.new
        ≡ without_all (map (λ start. names_of start.files) starts.now.items) (names_of files.old) }
{
    for start in starts {
        remove_all(&start.files, files);
    }
}
