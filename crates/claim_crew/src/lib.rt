//! Workers over a list of items: each item is claimed once, by one counter.
#![tactic(auto)]

mod claims;
mod crew;
mod rule;
mod task;
mod worker;

pub use claims::claim_all;
pub use task::Task;
