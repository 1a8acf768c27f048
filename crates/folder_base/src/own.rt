//! What a part, or the rest, has of the unsettled name changes as parts are handed out.
ghost use Rattle.std.specs.Prelude.{◌≡◌, List, IfOk, map};
ghost use Rattle.folder_base.specs.Disk.{Name};
ghost use Rattle.folder_base.specs.Files.{names_of};
ghost use Rattle.folder_base.specs.Handing.{answers, IsOwnChange, AreOwnChanges, TellsOwn, UndoesOwn};
ghost use Rattle.folder_base.specs.Index.{IsIndex};
ghost use Rattle.folder_base.specs.Listing.{listed};
ghost use Rattle.folder_base.specs.Parts.{AreApart, touches};

use crate::change::Change;
use crate::files::{Files, copy_of, copy_stored};
use crate::index::Index;
use crate::owning::is_name_of;
use crate::undo::Undo;
use crate::was::Was;
use std::alloc::Global;
use text_base::{OutOfMemory, Text};

/// What undoes those of these changes that touch a name of the part in this place, or of no part where that
/// is None; `live` are all files as they are.
pub(crate) fn own_undos(
    alloc: Global,
    index: &Index,
    place: Option<usize>,
    live: &Files,
    all: &Vec<Vec<Change>>,
) -> Result<Vec<Undo>, OutOfMemory>
    ensures { IfOk result
        (λ own. (stems : List Name) → IsIndex stems index.now → AreApart stems
        → UndoesOwn (answers stems place) (names_of live.now) (listed all.now.items) own.items) }
{
    let mut own = Vec::new(alloc);
    for changes in all {
        if touch(index, place, changes) {
            let changes = own_changes(alloc, index, place, live, changes)?;
            own.push(Undo::Listed { changes })?;
        }
    }
    Ok(own)
}

/// Whether a change touched a name of the part.
pub(crate) fn touch(index: &Index, place: Option<usize>, changes: &[Change]) -> bool
    ensures { (stems : List Name) → IsIndex stems index.now → AreApart stems
        → result ≡ touches (answers stems place) (map (λ change. change.name) changes.now) }
{
    for change in changes {
        if is_name_of(index, place, change.name.as_str()) {
            return true;
        }
    }
    false
}

/// What the part has of a change.
pub(crate) fn own_changes(
    alloc: Global,
    index: &Index,
    place: Option<usize>,
    live: &Files,
    changes: &Vec<Change>,
) -> Result<Vec<Change>, OutOfMemory>
    ensures { IfOk result
        (λ own. (stems : List Name) → IsIndex stems index.now → AreApart stems
        → AreOwnChanges (answers stems place) (names_of live.now) changes.now.items own.items) }
{
    let mut own = Vec::with_capacity(alloc, changes.len())?;
    for change in changes {
        own.push(own_change(alloc, index, place, live, change)?)?;
    }
    Ok(own)
}

fn own_change(
    alloc: Global,
    index: &Index,
    place: Option<usize>,
    live: &Files,
    change: &Change,
) -> Result<Change, OutOfMemory>
    ensures { IfOk result
        (λ own. (stems : List Name) → IsIndex stems index.now → AreApart stems
        → IsOwnChange (answers stems place) (names_of live.now) change.now own) }
{
    let name = Text::new(alloc, change.name.as_str())?;
    let was = if is_name_of(index, place, name.as_str()) {
        own_was(alloc, index, place, live, &change.was)?
    } else {
        Was::Apart
    };
    Ok(Change { name, was })
}

// What is told of a name of the part: a file that goes by a name of another's is as it is now.
fn own_was(
    alloc: Global,
    index: &Index,
    place: Option<usize>,
    live: &Files,
    was: &Was,
) -> Result<Was, OutOfMemory>
    ensures { IfOk result
        (λ own. (stems : List Name) → IsIndex stems index.now → AreApart stems
        → TellsOwn (answers stems place) (names_of live.now) was.now own) }
{
    match was {
        Was::Apart => Ok(Was::Apart),
        Was::Lost { file } => Ok(Was::Lost {
            file: copy_stored(alloc, file)?,
        }),
        Was::Still { now } => {
            if is_name_of(index, place, now.as_str()) {
                let now = Text::new(alloc, now.as_str())?;
                return Ok(Was::Still { now });
            }
            let file = copy_of(alloc, live, now.as_str())?;
            Ok(Was::Lost { file })
        }
    }
}
