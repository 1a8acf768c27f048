//! Which names stand in the folders that were listed.
#![tactic(auto)]

mod listing;
mod names;

pub use listing::Listing;
pub use names::Names;
