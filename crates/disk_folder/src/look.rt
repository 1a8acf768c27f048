//! What stands under a name.

use crate::name::is_inside;
use std::fs::Files;
use std::io::{self, Error, ErrorKind};

/// What stands under a name: nothing, a file of so many bytes, or a link that leads to one.
#[derive(Clone, Copy)]
pub(crate) enum Standing {
    Nothing,
    File(u64),
    Link(u64),
}

/// What stands under a name. A name that leads out of the folder, and what is neither a regular file
/// nor a link to one, is a fault.
pub(crate) fn look<R: Files>(files: &R, name: &str) -> io::Result<Standing> {
    if !is_inside(name) {
        return Err(Error::from(ErrorKind::InvalidInput));
    }
    let found = match files.symlink_metadata(name) {
        Ok(found) => found,
        Err(fault) if is_missing(&fault) => return Ok(Standing::Nothing),
        Err(fault) => return Err(fault),
    };
    if found.is_file() {
        return Ok(Standing::File(found.len()));
    }
    if found.is_symlink() {
        return Ok(Standing::Link(linked_size(files, name)?));
    }
    Err(Error::from(ErrorKind::InvalidInput))
}

/// How many bytes the file has that a link leads to.
fn linked_size<R: Files>(files: &R, name: &str) -> io::Result<u64> {
    let found = files.metadata(name)?;
    if found.is_file() {
        Ok(found.len())
    } else {
        Err(Error::from(ErrorKind::InvalidInput))
    }
}

/// Whether nothing stands there: the name is missing, or a folder on the way.
pub(crate) fn is_missing(fault: &Error) -> bool {
    matches!(fault.kind(), ErrorKind::NotFound | ErrorKind::NotADirectory)
}

/// How many bytes the file under a name has, which is no link.
pub(crate) fn own_file<R: Files>(files: &R, name: &str) -> io::Result<u64> {
    match look(files, name)? {
        Standing::File(size) => Ok(size),
        Standing::Link(_) => Err(Error::from(ErrorKind::InvalidInput)),
        Standing::Nothing => Err(Error::from(ErrorKind::NotFound)),
    }
}
