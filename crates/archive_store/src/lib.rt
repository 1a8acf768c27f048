//! The archive: which items were fetched before, one line for each.
#![tactic(auto)]

mod archive;
mod archive_fault;
mod growing;
mod laws;
mod reading;

pub use archive::Archive;
pub use archive_fault::ArchiveFault;
pub use laws::{line_is_last, reads_as_before};
