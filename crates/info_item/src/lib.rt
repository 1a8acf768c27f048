//! Items and formats of an information file.
#![tactic(auto)]

mod combo;
mod format;
mod formats;
mod found;
mod item;
mod item_fault;
mod keys;
mod lazy;
mod line;
mod merged;
mod protocol;
mod reader;
mod sums;
mod values;
mod whole;

pub use combo::Combo;
pub use format::Format;
pub use found::Found;
pub use item::Item;
pub use item_fault::ItemFault;
pub use lazy::View;
pub use reader::read_items;
pub use values::Values;
pub use whole::view;
