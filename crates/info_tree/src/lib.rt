//! Trees of JSON.
#![tactic(auto)]

mod ascii;
mod copy;
mod decoded;
mod escape;
mod escaping;
mod json;
mod keys;
mod machine;
mod members;
mod reader;
mod style;
mod token;
mod tree;
mod tree_fault;

pub use json::{push_json, tree_json};
pub use keys::Keys;
pub use reader::read_tree;
pub use style::Style;
pub use tree::{Tree, TreeList, TreeMap};
pub use tree_fault::TreeFault;
