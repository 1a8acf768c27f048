//! The entries of a folder.

use crate::name::path_of;
use name_listing::Names;
use std::alloc::{AllocError, Global};
use std::fs::Files;
use std::io::{self, ErrorKind, Read};
use std::str;

/// How many bytes of entries are read at once.
const ENTRIES: usize = 4096;

/// The names of a folder's entries, with the folder before each. Entries whose names are not UTF-8
/// are passed over, a missing folder has none, and no folder in it is entered.
pub(crate) fn read_names<R: Files>(files: &R, alloc: Global, folder: &str) -> io::Result<Names> {
    let mut names = Names::new(alloc);
    match files.open_dir(path_of(folder)) {
        Ok(mut entries) => put_entries(alloc, &mut entries, folder, &mut names)?,
        Err(fault) if fault.kind() == ErrorKind::NotFound => {}
        Err(fault) => return Err(fault),
    }
    Ok(names)
}

/// Puts each name that is read, with its folder before it.
fn put_entries<D: Read>(
    alloc: Global,
    entries: &mut D,
    folder: &str,
    names: &mut Names,
) -> io::Result<()> {
    let mut buffer = [0u8; ENTRIES];
    for _ in 0..u64::MAX {
        let came = entries.read(&mut buffer)?;
        if came == 0 {
            return Ok(());
        }
        for entry in buffer[..came].split(|byte| *byte == 0) {
            if let Ok(entry) = str::from_utf8(entry) {
                put_entry(alloc, entry, folder, names)?;
            }
        }
    }
    Ok(())
}

/// Puts the name of one entry.
fn put_entry(alloc: Global, entry: &str, folder: &str, names: &mut Names) -> io::Result<()> {
    if entry.is_empty() || entry == "." || entry == ".." {
        return Ok(());
    }
    let name = path_in(alloc, folder, entry)?;
    names.put(name.as_str())?;
    Ok(())
}

/// The name of an entry of a folder.
fn path_in(alloc: Global, folder: &str, entry: &str) -> Result<String, AllocError> {
    let mut name = String::from_str(alloc, folder)?;
    if !folder.is_empty() {
        name.push('/')?;
    }
    name.push_str(entry)?;
    Ok(name)
}
