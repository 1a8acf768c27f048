//! Patterns: a regular expression that a text is, and whether it matches anywhere in another text.
#![tactic(auto)]

mod fault;
mod finder;
mod pattern;

pub use fault::PatternFault;
pub use finder::Finder;
pub use pattern::Pattern;
