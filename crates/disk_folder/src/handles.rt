//! Files that are kept open between calls.

use std::alloc::{AllocError, Global};

/// An open file with its name.
#[derive(Drop)]
pub(crate) struct Kept<F: Drop> {
    pub name: String,
    pub file: F,
}

impl<F: Drop> Kept<F> {
    pub(crate) fn new(alloc: Global, name: &str, file: F) -> Result<Kept<F>, AllocError> {
        Ok(Kept {
            name: String::from_str(alloc, name)?,
            file,
        })
    }
}

/// Takes the file of this name that is kept, and lets go another one.
pub(crate) fn take_kept<F: Drop>(kept: &mut Option<Kept<F>>, name: &str) -> Option<F> {
    match kept.take() {
        Some(kept) if kept.name.as_str() == name => Some(kept.file),
        _ => None,
    }
}
