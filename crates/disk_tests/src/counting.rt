//! Files that count what is asked of them, above the system's.
use std::alloc::Allocator;
use std::cell::Cell;
use std::fs::{Files, Metadata, OpenOptions};
use std::io;

/// The files of the system, counted, some of whose calls fail.
#[derive(Drop)]
pub(crate) struct Counting<'a> {
    files: &'a HostRuntime,
    listings: Cell<u64>,
    /// How many folders were opened to be synced.
    syncs: Cell<u64>,
}

impl<'a> Counting<'a> {
    pub(crate) fn new(files: &'a HostRuntime) -> Counting<'a> {
        Counting {
            files,
            listings: Cell::new(0),
            syncs: Cell::new(0),
        }
    }

    pub(crate) fn listings(&self) -> u64 {
        self.listings.get()
    }

    pub(crate) fn syncs(&self) -> u64 {
        self.syncs.get()
    }
}

impl Files for Counting<'_> {
    type File = <HostRuntime as Files>::File;

    type Dir = <HostRuntime as Files>::Dir;

    fn open_file(&self, how: &OpenOptions, path: &str) -> io::Result<Self::File> {
        if path == "." {
            self.syncs.set(self.syncs.get().saturating_add(1));
        }
        self.files.open_file(how, path)
    }

    fn open_dir(&self, path: &str) -> io::Result<Self::Dir> {
        self.listings.set(self.listings.get().saturating_add(1));
        self.files.open_dir(path)
    }

    fn metadata(&self, path: &str) -> io::Result<Metadata> {
        self.files.metadata(path)
    }

    fn symlink_metadata(&self, path: &str) -> io::Result<Metadata> {
        self.files.symlink_metadata(path)
    }

    fn copy(&self, from: &str, to: &str) -> io::Result<u64> {
        self.files.copy(from, to)
    }

    fn rename(&self, from: &str, to: &str) -> io::Result<()> {
        self.files.rename(from, to)
    }

    fn remove_file(&self, path: &str) -> io::Result<()> {
        self.files.remove_file(path)
    }

    fn create_dir(&self, path: &str) -> io::Result<()> {
        self.files.create_dir(path)
    }

    fn remove_dir(&self, path: &str) -> io::Result<()> {
        self.files.remove_dir(path)
    }

    fn remove_dir_all<B: Allocator>(&self, alloc: B, path: &str) -> io::Result<()> {
        self.files.remove_dir_all(alloc, path)
    }
}
