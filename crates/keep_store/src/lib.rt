//! Files that are kept over a crash: pieces that are partly fetched, and files that are published whole.
#![tactic(auto)]

mod holding;
mod lane;
mod lane_names;
mod lane_refused;
mod lane_state;
mod lane_taker;
mod moving;
mod numeral;
mod opening;
mod publishing;
mod refusal;
mod resuming;
mod taking;

pub use lane::Lane;
pub use lane_refused::LaneRefused;
pub use publishing::publish;
