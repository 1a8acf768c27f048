//! The pieces of a component, fetched by several workers: each piece is claimed by one of them.
#![tactic(auto)]

mod crew;
mod slot;
mod task;

pub use crew::{CrewEnd, CrewRefused, fetch_all};
pub use piece_turn::PieceEnd;
