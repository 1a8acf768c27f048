//! The record of a plan, and the names that stand beside a component while it is fetched.
#![tactic(auto)]

mod laws;
mod line;
mod names;
mod plan;

pub use laws::{component_is_none_beside, plan_sole, promise_name, stems_apart};
pub use line::Line;
pub use names::{
    name_room, write_joined, write_pieces, write_promise, write_record, write_spare, write_stem,
};
pub use plan::plan_text;
