//! One piece's turn: its tries over HTTP, from what its lane promises on, until it ends.
#![tactic(auto)]

mod attempt;
mod laws;
mod piece_end;
mod turn;

pub use laws::{bad_urls_fail, each_failure_has_a_cause};
pub use piece_end::PieceEnd;
pub use turn::fetch_piece;
