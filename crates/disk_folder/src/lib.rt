//! A folder on the disk, over std's files.
#![tactic(auto)]

mod disk;
mod folder;
mod handles;
mod look;
mod name;
mod read_names;
mod unsettled;

pub use folder::DiskFolder;
