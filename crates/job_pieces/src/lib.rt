//! What is fetched for a format, piece by piece, and the record of a component's plan.
#![tactic(auto)]

mod component;
mod laws;
mod parts;
mod pieces;
mod record;
mod urls;

pub use component::Component;
pub use laws::{one_plan, urls_make_lines};
pub use parts::{fragments_of, parts_of};
pub use pieces::{can_be_fetched, pieces_of};
pub use record::plan_text;
