//! Templates: the language of `-o` and `--print`, read from left to right to the first fault.
#![tactic(auto)]

mod conv;
mod date_format;
mod expr;
mod expr_reading;
mod fault;
mod field;
mod field_reading;
mod ints;
mod key;
mod laws;
mod listed;
mod path_reading;
mod reading;
mod replacement;
mod scan;
mod template;
mod tpl_kind;

pub use conv::{Conv, Flags, Kind};
pub use date_format::{DateFormat, DatePart, Directive};
pub use expr::{Constant, Expr, Op, Operand, Operation, Path};
pub use fault::TplFault;
pub use field::Field;
pub use key::{Key, Slice, Words};
pub use laws::{
    accepted_is_spelled, nothing_is_wrong_before_a_fault, settled_fault_stays, spelled_is_accepted,
};
pub use reading::read_template;
pub use replacement::{Align, Replacement, ReplacementPart};
pub use template::{Part, Template};
