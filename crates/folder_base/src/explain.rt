//! What each name had that a change touched, listed before parts are handed out.
ghost use Rattle.std.specs.Prelude.{◌≡◌, Option, IfOk, OnOk};
ghost use Rattle.folder_base.specs.Disk.{Names, Spot, mark};
ghost use Rattle.folder_base.specs.Files.{names_of};
ghost use Rattle.folder_base.specs.Listing.{Explains, IsExplained, seen_spots};
ghost use Rattle.folder_base.specs.Undo.{was_spot, set_spot, set_spots};

use crate::change::Change;
use crate::files::Files;
use crate::undo::Undo;
use crate::was::Was;
use std::alloc::Global;
use std::collections::BTreeMap;
use text_base::{OutOfMemory, Text};

/// What names had before some changes, where that is not what they have now.
type Seen = BTreeMap<String, Was>;

/// Lists of each change, the first one first, what the names had before that it touched; `files` are those
/// of now.
pub(crate) fn explain_all(
    alloc: Global,
    files: &Files,
    mut undos: Vec<Undo>,
) -> Result<Vec<Vec<Change>>, OutOfMemory>
    ensures { IfOk result (λ all. Explains (names_of files.now) undos.items all.items) }
{
    let mut seen = BTreeMap::new(alloc);
    let mut all = Vec::new(alloc);
    while let Some(undo) = undos.pop() {
        let changes = explain(alloc, files, &seen, undo)?;
        set_seen(alloc, &changes, &mut seen)?;
        all.push(changes)?;
    }
    all.reverse();
    Ok(all)
}

// The same of one change, after which names had what was seen.
fn explain(
    alloc: Global,
    files: &Files,
    seen: &Seen,
    undo: Undo,
) -> Result<Vec<Change>, OutOfMemory>
    ensures { IfOk result
        (λ changes. IsExplained (seen_spots (names_of files.now) seen.now) undo changes) }
{
    let mut changes = Vec::new(alloc);
    match undo {
        Undo::Freed { name, file } => {
            let was = Was::Lost { file };
            changes.push(Change { name, was })?;
        }
        Undo::Moved { from, to, file } => {
            let moved = was_at(alloc, files, seen, to.as_str())?;
            let was = Was::Lost { file };
            changes.push(Change { name: to, was })?;
            changes.push(Change {
                name: from,
                was: moved,
            })?;
        }
        Undo::Listed { changes } => return Ok(changes),
    }
    Ok(changes)
}

// What a name had.
fn was_at(alloc: Global, files: &Files, seen: &Seen, name: &str) -> Result<Was, OutOfMemory>
    ensures { IfOk result
        (λ was. (now : Option Spot)
        → was_spot was now ≡ seen_spots (names_of files.now) seen.now name.now) }
{
    match seen.get(name) {
        Some(Was::Apart) | None => stands_at(alloc, files, name),
        Some(was) => was.copy(alloc),
    }
}

// The file that has a name now, if there is one.
fn stands_at(alloc: Global, files: &Files, name: &str) -> Result<Was, OutOfMemory>
    ensures { IfOk result
        (λ was. (now : Option Spot) → was_spot was now ≡ mark (names_of files.now) name.now) }
{
    if !files.contains_key(name) {
        return Ok(Was::Lost { file: None });
    }
    let now = Text::new(alloc, name)?;
    Ok(Was::Still { now })
}

// Names had this before.
fn set_seen(alloc: Global, changes: &Vec<Change>, seen: &mut Seen) -> Result<(), OutOfMemory>
    ensures { OnOk result
        ((live : Names) → seen_spots live seen.new ≡ set_spots changes.now.items (seen_spots live seen.old)) }
{
    for change in changes {
        set_one(alloc, change, seen)?;
    }
    Ok(())
}

fn set_one(alloc: Global, change: &Change, seen: &mut Seen) -> Result<(), OutOfMemory>
    ensures { OnOk result
        ((live : Names) → seen_spots live seen.new ≡ set_spot change.now (seen_spots live seen.old)) }
{
    match &change.was {
        Was::Apart => {}
        was => {
            let name = String::from_str(alloc, change.name.as_str())?;
            seen.insert(name, was.copy(alloc)?)?;
        }
    }
    Ok(())
}
