//! Texts, numbers, the byte scans, and the words for what was refused.
#![tactic(auto)]

mod call_plan;
mod fault_count;
mod faults;
mod fields;
mod kept;
mod num_arithmetic;
mod num_fault;
mod num_laws;
mod num_printing;
mod num_reading;
mod num_rounding;
mod num_spelling;
mod num_value;
mod number;
mod scan;
mod size;
mod spaces;
mod text;

pub use call_plan::{CallPlan, FaultPlan};
pub use fault_count::FaultCount;
pub use faults::{Failed, FolderCall, FolderFault, OutOfMemory};
pub use fields::{NumField, TextField};
pub use num_arithmetic::{nano, num_add, num_cmp, num_mul, num_sub};
pub use num_fault::NumFault;
pub use num_laws::longest_number_at_front;
pub use num_printing::num_text;
pub use num_reading::read_num;
pub use number::{Dec, Num};
pub use scan::{first_json_special, first_name_special, json_special_32, name_special_32};
pub use size::{size_of_bytes, size_value};
pub use spaces::{trimmed, trimmed_bytes, without_first_spaces, without_last_spaces};
pub use text::Text;
