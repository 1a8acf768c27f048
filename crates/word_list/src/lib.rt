//! The words of a command line: which options there are, what their values are, and what all words together ask for.
#![tactic(auto)]

mod choosing;
mod defaults;
mod entries;
mod fault;
mod fetching;
mod form;
mod meaning;
mod naming;
mod numbers;
mod option_table;
mod options;
mod settings;
mod showing;
mod source;
mod tools;
mod values;
mod words;

pub use fault::{OptionFault, WordsFault};
pub use options::Options;
pub use words::read_words;
