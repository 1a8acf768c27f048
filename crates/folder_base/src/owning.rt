//! Whether a part answers for all names that files have or that were changed.
ghost use Rattle.std.specs.Prelude.{◌≡◌, true, List, IsTrue, is_some};
ghost use Rattle.folder_base.specs.Disk.{Name};
ghost use Rattle.folder_base.specs.Files.{names_of};
ghost use Rattle.folder_base.specs.Handing.{answers};
ghost use Rattle.folder_base.specs.Index.{IsIndex, FindsPart};
ghost use Rattle.folder_base.specs.Parts.{AreApart};
ghost use Rattle.folder_base.specs.Undo.{IsOwn, AreOwn, IsOwnWas, AreOwnWas};

use crate::change::Change;
use crate::files::Files;
use crate::index::{Index, find_part};
use crate::undo::Undo;
use crate::was::Was;

/// Whether the part in this place answers for the name, or no part where that is None.
pub(crate) fn is_name_of(index: &Index, place: Option<usize>, name: &str) -> bool
    ensures found { IsTrue result
        → (stems : List Name) → IsIndex stems index.now → FindsPart stems name.now place }
    ensures exact { (stems : List Name) → IsIndex stems index.now → AreApart stems
        → result ≡ answers stems place name.now }
{
    find_part(index, name) == place
}

/// The same of all names of these files.
pub(crate) fn are_names_of(index: &Index, place: Option<usize>, files: &Files) -> bool
    ensures { IsTrue result
        → (stems : List Name) → IsIndex stems index.now
        → (name : Name) → is_some (names_of files.now name) ≡ true → FindsPart stems name place }
{
    for name in files.keys() {
        if !is_name_of(index, place, name) {
            return false;
        }
    }
    true
}

// The same of the names that a change touched.
fn is_undo_of(index: &Index, place: Option<usize>, undo: &Undo) -> bool
    ensures { IsTrue result
        → (stems : List Name) → IsIndex stems index.now
        → IsOwn (λ name. FindsPart stems name place) undo.now }
{
    match undo {
        Undo::Freed { name, .. } => is_name_of(index, place, name.as_str()),
        Undo::Moved { from, to, .. } => {
            is_name_of(index, place, from.as_str()) && is_name_of(index, place, to.as_str())
        }
        Undo::Listed { changes } => are_changes_of(index, place, changes),
    }
}

// The same of the names of which something is listed.
fn are_changes_of(index: &Index, place: Option<usize>, changes: &Vec<Change>) -> bool
    ensures { IsTrue result
        → (stems : List Name) → IsIndex stems index.now
        → AreOwnWas (λ name. FindsPart stems name place) changes.now.items }
{
    for change in changes {
        if !is_change_of(index, place, change) {
            return false;
        }
    }
    true
}

fn is_change_of(index: &Index, place: Option<usize>, change: &Change) -> bool
    ensures { IsTrue result
        → (stems : List Name) → IsIndex stems index.now
        → IsOwnWas (λ name. FindsPart stems name place) change.now.name change.now.was }
{
    let name = change.name.as_str();
    match &change.was {
        Was::Apart => true,
        Was::Lost { .. } => is_name_of(index, place, name),
        Was::Still { now } => {
            is_name_of(index, place, name) && is_name_of(index, place, now.as_str())
        }
    }
}

/// The same of all names that these changes touched.
pub(crate) fn are_undos_of(index: &Index, place: Option<usize>, undos: &Vec<Undo>) -> bool
    ensures { IsTrue result
        → (stems : List Name) → IsIndex stems index.now
        → AreOwn (λ name. FindsPart stems name place) undos.now.items }
{
    for undo in undos {
        if !is_undo_of(index, place, undo) {
            return false;
        }
    }
    true
}
