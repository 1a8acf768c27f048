//! A folder of files, what a crash may leave of it, and a folder in memory.
#![tactic(auto)]

mod change;
mod content;
mod explain;
mod file;
mod files;
mod folder;
mod index;
mod line;
mod listing;
mod log;
mod memory;
mod memory_parts;
mod merge;
mod own;
mod owning;
mod part_lines;
mod parting;
mod place;
mod places;
mod plan;
mod replay;
mod retell;
mod round;
mod rounds;
mod side;
mod split;
mod starts;
mod step;
mod steps;
mod store_fault;
mod stored;
mod taker;
mod undo;
mod was;

pub use file::File;
pub use folder::Folder;
pub use memory::FolderMem;
pub use store_fault::StoreFault;
pub use taker::Taker;
pub use text_base::FolderCall;
