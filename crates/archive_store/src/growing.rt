//! Writes an archive anew with a line more.
ghost use Rattle.std.specs.Prelude.{◌≡◌, IsTrue, IfOk, OnOk};
ghost use Rattle.folder_base.specs.Story.{Through, IsWhole};
ghost use Rattle.keep_store.specs.Publish.{Stays};
ghost use Rattle.folder_steps.specs.Blames.{Blames};
ghost use Rattle.folder_steps.specs.Make.{IsReplacing, IsReplaced};
ghost use Rattle.archive_store.specs.Adding.{spare_of, IsAdding, IsAdded};
ghost use Rattle.archive_store.specs.Causes.{BlamesAdd};
ghost use Rattle.archive_store.specs.Lines.{is_ended, grown};

use crate::archive_fault::ArchiveFault;
use folder_base::{Folder, StoreFault};
use folder_steps::{drop_name, read_all, replace};
use std::alloc::Global;
use text_base::OutOfMemory;

/// Whether the last byte, where there is one, is a line feed.
fn is_ended(bytes: &[u8]) -> bool
    ensures { result ≡ is_ended bytes.now }
{
    match bytes.last() {
        Some(last) => *last == b'\n',
        None => true,
    }
}

/// An archive's bytes with a line more.
fn grown(mut bytes: Vec<u8>, line: &str) -> Result<Vec<u8>, OutOfMemory>
    ensures { IfOk result (λ all. all.items ≡ grown bytes.items line.now) }
{
    if !is_ended(bytes.as_slice()) {
        bytes.push(b'\n')?;
    }
    bytes.extend_from_slice(line.as_bytes())?;
    bytes.push(b'\n')?;
    Ok(bytes)
}

/// Puts these bytes in a file's place, by way of a spare name. What stands there is removed first.
fn put_in_place<F: Folder>(
    folder: &mut F,
    spare: &str,
    name: &str,
    bytes: &[u8],
) -> Result<(), StoreFault>
    requires { IsTrue (F.world folder.old).tells → IsWhole (F.world folder.old) }
    ensures kept { Stays (F.world folder.old) (F.world folder.new) }
    ensures blames { Blames (F.world folder.old) (F.world folder.new) result }
    ensures moments { IsTrue (F.world folder.new).tells
        → Through (F.world folder.old).story (F.world folder.new).story
        (IsReplacing spare.now name.now bytes.now (F.world folder.old).story.now) }
    ensures done { IsTrue (F.world folder.new).tells
        → OnOk result
        (IsReplaced spare.now name.now bytes.now
        (F.world folder.old).story.now (F.world folder.new).story.now) }
{
    drop_name(folder, spare)?;
    replace(folder, spare, name, bytes)
}

/// Writes an archive's file anew with a line more.
pub(crate) fn write_with<F: Folder>(
    alloc: Global,
    folder: &mut F,
    spare: &str,
    name: &str,
    line: &str,
) -> Result<(), ArchiveFault>
    requires whole { IsTrue (F.world folder.old).tells → IsWhole (F.world folder.old) }
    requires spare { spare.now ≡ spare_of name.now }
    ensures kept { Stays (F.world folder.old) (F.world folder.new) }
    ensures blames { BlamesAdd (F.world folder.old) (F.world folder.new) result }
    ensures moments { IsTrue (F.world folder.new).tells
        → Through (F.world folder.old).story (F.world folder.new).story
        (IsAdding name.now line.now (F.world folder.old).story.now) }
    ensures done { IsTrue (F.world folder.new).tells
        → OnOk result
        (IsAdded name.now line.now (F.world folder.old).story.now (F.world folder.new).story.now) }
{
    let bytes = read_all(alloc, folder, name)?;
    let bytes = grown(bytes, line)?;
    put_in_place(folder, spare, name, bytes.as_slice())?;
    Ok(())
}
