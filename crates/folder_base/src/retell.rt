//! What is listed of earlier names, told again as names change.
ghost use Rattle.std.specs.Prelude.{◌≡◌, IfOk, option_map};
ghost use Rattle.folder_base.specs.Disk.{Names};
ghost use Rattle.folder_base.specs.Retold.{AreRetold, IsRetold, AreRetoldChanges, IsRetoldWas, retold};
ghost use Rattle.folder_base.specs.Stored.{file_of};

use crate::change::Change;
use crate::files::copy_stored;
use crate::stored::Stored;
use crate::undo::Undo;
use crate::was::Was;
use std::alloc::Global;
use text_base::{OutOfMemory, Text};

/// What undoes earlier changes, once `name` stands for another file than `file`, or for none: for that
/// of `from`, where it is given.
pub(crate) fn retell_all(
    alloc: Global,
    undos: Vec<Undo>,
    name: &str,
    file: &Option<Stored>,
    from: Option<&str>,
) -> Result<Vec<Undo>, OutOfMemory>
    ensures { IfOk result
        (λ told. (live : Names) → live name.now ≡ option_map file_of file.now
        → AreRetold (retold live name.now (option_map (λ text. text.now) from.entry)) undos.items told.items) }
{
    let mut told = Vec::with_capacity(alloc, undos.len())?;
    for undo in undos {
        told.push(retell(alloc, undo, name, file, from)?)?;
    }
    Ok(told)
}

fn retell(
    alloc: Global,
    undo: Undo,
    name: &str,
    file: &Option<Stored>,
    from: Option<&str>,
) -> Result<Undo, OutOfMemory>
    ensures { IfOk result
        (λ told. (live : Names) → live name.now ≡ option_map file_of file.now
        → IsRetold (retold live name.now (option_map (λ text. text.now) from.entry)) undo told) }
{
    match undo {
        Undo::Listed { changes } => Ok(Undo::Listed {
            changes: retell_changes(alloc, changes, name, file, from)?,
        }),
        plain => Ok(plain),
    }
}

fn retell_changes(
    alloc: Global,
    changes: Vec<Change>,
    name: &str,
    file: &Option<Stored>,
    from: Option<&str>,
) -> Result<Vec<Change>, OutOfMemory>
    ensures { IfOk result
        (λ told. (live : Names) → live name.now ≡ option_map file_of file.now
        → AreRetoldChanges (retold live name.now (option_map (λ text. text.now) from.entry)) changes.items told.items) }
{
    let mut told = Vec::with_capacity(alloc, changes.len())?;
    for change in changes {
        let Change { name: at, was } = change;
        let was = retell_was(alloc, was, name, file, from)?;
        told.push(Change { name: at, was })?;
    }
    Ok(told)
}

fn retell_was(
    alloc: Global,
    was: Was,
    name: &str,
    file: &Option<Stored>,
    from: Option<&str>,
) -> Result<Was, OutOfMemory>
    ensures { IfOk result
        (λ told. (live : Names) → live name.now ≡ option_map file_of file.now
        → IsRetoldWas (retold live name.now (option_map (λ text. text.now) from.entry)) was told) }
{
    let Was::Still { now } = was else {
        return Ok(was);
    };
    if now.as_str() == name {
        let file = copy_stored(alloc, file)?;
        return Ok(Was::Lost { file });
    }
    if from == Some(now.as_str()) {
        let now = Text::new(alloc, name)?;
        return Ok(Was::Still { now });
    }
    Ok(Was::Still { now })
}
