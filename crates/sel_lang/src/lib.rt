//! Selectors: which of an item's formats are wanted.
#![tactic(auto)]

mod field_name;
mod filter;
mod filter_reading;
mod joint;
mod laws;
mod marks;
mod naming;
mod operators;
mod pick;
mod reading;
mod sel;
mod sel_fault;
mod sel_kind;
mod values;

pub use filter::{Filter, NumOp, TextOp, TextTest};
pub use laws::{nothing_is_wrong_before_a_fault, settled_fault_stays, spelled_is_accepted};
pub use pick::{Media, Pick};
pub use reading::read_sel;
pub use sel::Sel;
pub use sel_fault::SelFault;
