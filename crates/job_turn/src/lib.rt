//! One job's turn: its components, the steps that make its file of them, and what is removed behind it.
#![tactic(auto)]

mod clearing;
mod closing;
mod components;
mod end;
mod frame;
mod settings;
mod steps;
mod turn;

pub use end::{FaultAt, JobEnd, TurnFault};
pub use settings::Settings;
pub use turn::turn_job;
