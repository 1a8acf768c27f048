//! Choices: which formats of an item a selector stands for.
#![tactic(auto)]

mod choice;
mod choose_fault;
mod choosing;
mod ext;
mod laws;
mod matcher;
mod meeting;
mod merging;
mod picking;
mod placed;
mod policy;
mod streams;

pub use choose_fault::ChooseFault;
pub use choosing::choose;
pub use laws::picks_are_ranked;
pub use streams::Streams;
