//! What each part has of the unsettled name changes, as parts are handed out.
ghost use Rattle.std.specs.Prelude.{◌≡◌, [], List, All, IfOk, OnOk, length, map, not, ◌&&◌};
ghost use Rattle.folder_base.specs.Disk.{Name};
ghost use Rattle.folder_base.specs.Files.{names_of};
ghost use Rattle.folder_base.specs.Giving.{ArePartUndos, GivesEach};
ghost use Rattle.folder_base.specs.Index.{IsIndex};
ghost use Rattle.folder_base.specs.Listing.{listed};
ghost use Rattle.folder_base.specs.Parts.{AreApart, touches};

use crate::change::Change;
use crate::files::Files;
use crate::index::{Index, find_part};
use crate::own::{own_changes, touch};
use crate::undo::Undo;
use std::alloc::Global;
use text_base::OutOfMemory;

/// For each of `count` parts what undoes those of these changes that touch a name of it; `live` are all files
/// as they are.
pub(crate) fn split_undos(
    alloc: Global,
    index: &Index,
    live: &Files,
    all: &Vec<Vec<Change>>,
    count: usize,
) -> Result<Vec<Vec<Undo>>, OutOfMemory>
    ensures { IfOk result
        (λ lists. (stems : List Name) → IsIndex stems index.now → AreApart stems → length stems ≡ count
        → ArePartUndos stems (names_of live.now) (listed all.now.items) lists.items) }
{
    let mut lists = no_undos(alloc, count)?;
    for changes in all {
        give_changes(alloc, index, live, changes, &mut lists)?;
    }
    Ok(lists)
}

// As many lists as there are parts, with nothing in them.
fn no_undos(alloc: Global, count: usize) -> Result<Vec<Vec<Undo>>, OutOfMemory>
    ensures many { IfOk result (λ lists. length lists.items ≡ count) }
    ensures none { IfOk result (λ lists. All (λ own. own.items ≡ []) lists.items) }
{
    let mut lists = Vec::with_capacity(alloc, count)?;
    for _at in 0..count {
        lists.push(Vec::new(alloc))?;
    }
    Ok(lists)
}

// Puts behind the lists of the parts what they have of a change.
fn give_changes(
    alloc: Global,
    index: &Index,
    live: &Files,
    changes: &Vec<Change>,
    lists: &mut Vec<Vec<Undo>>,
) -> Result<(), OutOfMemory>
    ensures { OnOk result
        ((stems : List Name) → IsIndex stems index.now → AreApart stems
        → length lists.old.items ≡ length stems
        → GivesEach stems (names_of live.now) changes.now.items
        (λ mine. touches mine (map (λ change. change.name) changes.now.items))
        lists.old.items lists.new.items) }
{
    for (at, change) in changes.iter().enumerate() {
        let name = change.name.as_str();
        give_part(alloc, index, live, changes, &changes[..at], name, lists)?;
    }
    Ok(())
}

// The same of the part alone that answers for this name, unless the change touched a name of it earlier.
fn give_part(
    alloc: Global,
    index: &Index,
    live: &Files,
    changes: &Vec<Change>,
    earlier: &[Change],
    name: &str,
    lists: &mut Vec<Vec<Undo>>,
) -> Result<(), OutOfMemory>
    ensures { OnOk result
        ((stems : List Name) → IsIndex stems index.now → AreApart stems
        → length lists.old.items ≡ length stems
        → GivesEach stems (names_of live.now) changes.now.items
        (λ mine. not (touches mine (map (λ change. change.name) earlier.now)) && mine name.now)
        lists.old.items lists.new.items) }
{
    let Some(place) = find_part(index, name) else {
        return Ok(());
    };
    if touch(index, Some(place), earlier) {
        return Ok(());
    }
    let changes = own_changes(alloc, index, Some(place), live, changes)?;
    if place < lists.len() {
        lists[place].push(Undo::Listed { changes })?;
    }
    Ok(())
}
