//! Filling templates from a tree, or from a view of an item.
#![tactic(auto)]

mod braces;
mod convert;
mod date;
mod field;
mod fill_fault;
mod filling;
mod int;
mod layout;
mod letters;
mod limit;
mod marks;
mod path;
mod replacement;
mod slice;
mod value;

pub use fill_fault::FillFault;
pub use filling::fill;
pub use marks::{Clean, Marks};
