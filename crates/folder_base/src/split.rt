//! Files that are handed out to parts.
ghost use Rattle.std.specs.Prelude.{IfOk, OnOk};
ghost use Rattle.folder_base.specs.Files.{names_of};
ghost use Rattle.folder_base.specs.Index.{IsIndex};
ghost use Rattle.folder_base.specs.Parts.{AreApart};
ghost use Rattle.folder_base.specs.Split.{AreEmpty, AreSplit, GivesPart};

use crate::files::{Files, copy_name};
use crate::index::{Index, find_part};
use std::alloc::Global;
use std::collections::BTreeMap;
use text_base::{OutOfMemory, Text};

/// A map without files for each part.
fn empty_files(alloc: Global, stems: &Vec<Text>) -> Result<Vec<Files>, OutOfMemory>
    ensures { IfOk result (λ split. AreEmpty stems.now.items split.items) }
{
    let mut split = Vec::with_capacity(alloc, stems.len())?;
    for _stem in stems {
        split.push(BTreeMap::new(alloc))?;
    }
    Ok(split)
}

/// Copies a file to the part that answers for its name, if there is one.
fn give_name(
    alloc: Global,
    files: &Files,
    index: &Index,
    name: &str,
    split: &mut Vec<Files>,
) -> Result<(), OutOfMemory>
    ensures { OnOk result
        (GivesPart (names_of files.now) name.now index.now split.old.items split.new.items) }
{
    match find_part(index, name) {
        Some(at) => {
            if at < split.len() {
                copy_name(alloc, files, name, &mut split[at])
            } else {
                Ok(())
            }
        }
        None => Ok(()),
    }
}

/// Copies of the files for each part.
pub(crate) fn split_files(
    alloc: Global,
    files: &Files,
    index: &Index,
    stems: &Vec<Text>,
) -> Result<Vec<Files>, OutOfMemory>
    requires indexed { IsIndex stems.now.items index.now }
    requires apart { AreApart stems.now.items }
    ensures { IfOk result
        (λ split. AreSplit stems.now.items (names_of files.now) split.items) }
{
    let mut split = empty_files(alloc, stems)?;
    for name in files.keys() {
        give_name(alloc, files, index, name, &mut split)?;
    }
    Ok(split)
}
