//! The names of a job's files: how a name is set apart from its extension and cut, what a job's names are, and whose they are already.
#![tactic(auto)]

mod family;
mod index;
mod laws;
mod naming;

pub use family::{exact_names, is_long, meets_archive, meets_itself};
pub use index::NameIndex;
pub use laws::exact_names_decide;
pub use naming::{SplitName, output_name, part_name, split_name, whole_name, with_ext};
