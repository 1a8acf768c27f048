//! What is made of fetched files, step by step, and the children that do it.
#![tactic(auto)]

mod args;
mod children;
mod rule;
mod steps;
mod target;

pub use children::{commands, exec_commands};
pub use rule::ExtRule;
pub use steps::{Change, Making, Step};
