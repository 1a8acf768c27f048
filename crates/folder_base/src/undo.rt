ghost use Rattle.std.specs.Prelude.{◌≡◌, OnOk};
ghost use Rattle.folder_base.specs.Files.{names_of};
ghost use Rattle.folder_base.specs.Undo.{undone_names, set_name, set_names};

use crate::change::Change;
use crate::files::{Files, copy_of, put_file};
use crate::stored::Stored;
use crate::was::Was;
use std::alloc::Global;
use text_base::{OutOfMemory, Text};

/// What undoes a name change.
#[derive(Drop)]
pub(crate) enum Undo {
    /// The name stood for this file, or for none.
    Freed {
        name: Text,
        file: Option<Stored>,
    },
    /// The file of `to` had the name `from`, and `to` stood for this file, or for none.
    Moved {
        from: Text,
        to: Text,
        file: Option<Stored>,
    },
    /// It is listed what each name had that was touched, as parts were handed out since.
    Listed {
        changes: Vec<Change>,
    },
}

impl Undo {
    /// Gives the files the names that they had before the change; `live` are the files by the names that
    /// they had before anything was undone.
    pub(crate) fn undo(
        self,
        alloc: Global,
        live: &Files,
        files: &mut Files,
    ) -> Result<(), OutOfMemory>
        ensures { OnOk result
            (names_of files.new ≡ undone_names (names_of live.now) self (names_of files.old)) }
    {
        match self {
            Undo::Freed { name, file } => {
                put_file(alloc, files, name.as_str(), file)?;
            }
            Undo::Moved { from, to, file } => {
                let moved = put_file(alloc, files, to.as_str(), file)?;
                put_file(alloc, files, from.as_str(), moved)?;
            }
            Undo::Listed { changes } => set_all_back(alloc, live, changes, files)?,
        }
        Ok(())
    }
}

// Gives each name what it had.
fn set_all_back(
    alloc: Global,
    live: &Files,
    changes: Vec<Change>,
    files: &mut Files,
) -> Result<(), OutOfMemory>
    ensures { OnOk result
        (names_of files.new ≡ set_names (names_of live.now) changes.items (names_of files.old)) }
{
    for change in changes {
        set_back(alloc, live, change, files)?;
    }
    Ok(())
}

// Gives a name what it had.
fn set_back(
    alloc: Global,
    live: &Files,
    change: Change,
    files: &mut Files,
) -> Result<(), OutOfMemory>
    ensures { OnOk result
        (names_of files.new ≡ set_name (names_of live.now) change (names_of files.old)) }
{
    let Change { name, was } = change;
    match was {
        Was::Apart => {}
        Was::Lost { file } => {
            put_file(alloc, files, name.as_str(), file)?;
        }
        Was::Still { now } => {
            let file = copy_of(alloc, live, now.as_str())?;
            put_file(alloc, files, name.as_str(), file)?;
        }
    }
    Ok(())
}
