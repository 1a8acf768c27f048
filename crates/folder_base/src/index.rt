//! Which part answers for a name.
ghost use Rattle.std.specs.Prelude.{List, ℕ, IfOk};
ghost use Rattle.folder_base.specs.Index.{IsIndex, FindsPart};

use std::alloc::Global;
use std::collections::BTreeMap;
use text_base::{OutOfMemory, Text};

/// Each stem's place among the stems.
pub(crate) type Index = BTreeMap<Vec<u8>, usize>;

pub(crate) fn index_of(alloc: Global, stems: &Vec<Text>) -> Result<Index, OutOfMemory>
    ensures { IfOk result (IsIndex stems.now.items) }
{
    let mut index = BTreeMap::new(alloc);
    for (at, stem) in stems.iter().enumerate() {
        index.insert(stem.as_str().as_bytes().to_vec(alloc)?, at)?;
    }
    Ok(index)
}

/// The place of the part that answers for this name.
pub(crate) fn find_part(index: &Index, name: &str) -> Option<usize>
    ensures { (stems : List (List ℕ)) → IsIndex stems index.now → FindsPart stems name.now result }
{
    let name = name.as_bytes();
    for (at, byte) in name.iter().enumerate() {
        if *byte == b'.' {
            if let Some(place) = index.get(&name[..at]) {
                return Some(*place);
            }
        }
    }
    index.get(name).copied()
}
