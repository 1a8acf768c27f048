//! Child programs over the folder on the disk.
#![tactic(auto)]

mod last_words;
mod tools;

pub use tools::ChildTools;
