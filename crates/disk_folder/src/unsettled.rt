//! Folders with a change of names that may not be lasting yet.

use std::alloc::{AllocError, Global};
use std::collections::BTreeSet;

/// A set of folders, by their paths.
#[derive(Drop)]
pub(crate) struct Unsettled {
    alloc: Global,
    folders: BTreeSet<String>,
}

impl Unsettled {
    pub(crate) fn new(alloc: Global) -> Unsettled {
        Unsettled {
            alloc,
            folders: BTreeSet::new(alloc),
        }
    }

    /// A change of names in this folder is to come.
    pub(crate) fn note(&mut self, folder: &str) -> Result<(), AllocError> {
        if self.folders.contains(folder) {
            return Ok(());
        }
        let folder = String::from_str(self.alloc, folder)?;
        self.folders.insert(folder)?;
        Ok(())
    }

    /// Whether a change in this folder is noted.
    pub(crate) fn has(&self, folder: &str) -> bool {
        self.folders.contains(folder)
    }

    /// What another set notes is noted here too.
    pub(crate) fn note_all(&mut self, other: &Unsettled) -> Result<(), AllocError> {
        for folder in &other.folders {
            self.note(folder)?;
        }
        Ok(())
    }

    pub(crate) fn folders(&self) -> &BTreeSet<String> {
        &self.folders
    }

    /// All changes so far are lasting.
    pub(crate) fn clear(&mut self) {
        self.folders.clear();
    }
}
