//! Texts in names and lines: cleaned, quoted, escaped, cut, in a normal form, with a suffix; and the test of a path.
#![tactic(auto)]

mod cleaning;
mod forms;
mod front;
mod marks;
mod path;
mod quoting;
mod suffix;

pub use cleaning::clean;
pub use forms::normal_form;
pub use front::byte_cut;
pub use path::{PathFault, check_path};
pub use quoting::{html_escape, shell_quote};
pub use suffix::decimal_suffix;
pub use unicode_normalization::Form;
