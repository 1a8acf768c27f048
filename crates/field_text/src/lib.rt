//! What a field of a template prints of a value, as far as that needs no template: plain texts, numbers, lists, days and
//! times, and the room that a text takes.
#![tactic(auto)]

mod digits;
mod frame;
mod listed;
mod moment;
mod numbers;
mod plain;
mod radix;
mod sign;

pub use digits::{push_last_digits, push_times};
pub use frame::{Frame, framed, framed_bytes};
pub use listed::{Item, list_text};
pub use moment::Moment;
pub use numbers::{DecimalForm, IntegerForm, decimal_text, integer_text};
pub use plain::{moment_of, number_in, plain_text, push_plain};
pub use radix::Radix;
pub use sign::Sign;
