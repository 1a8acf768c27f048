//! A reply over HTTP: its heads, its body in whatever pieces it comes, and the verdict on it.
#![tactic(auto)]

mod chunk_line;
mod chunks;
mod field_value;
mod fields;
mod heads;
mod judged;
mod laws;
mod part;
mod piece_fault;
mod plan;
mod range;
mod step;
mod stop;
mod verdict;

pub use chunk_line::LineRead;
pub use chunks::Chunks;
pub use heads::{HeadNext, next_head};
pub use judged::Judged;
pub use laws::{
    each_reply_has_a_verdict, honest_reply_gives_the_whole, one_verdict,
    truthful_reply_gives_the_truth,
};
pub use part::Part;
pub use piece_fault::PieceFault;
pub use plan::Plan;
pub use range::Range;
pub use step::Step;
pub use stop::Stop;
pub use verdict::{changes, judge};
