//! How an item's formats are sorted: sort words, ranks, and the order from best to worst.
#![tactic(auto)]

mod field_order;
mod given;
mod kind;
mod limit;
mod mark;
mod order;
mod piece;
mod rank;
mod reading;
mod row;
mod sort_fault;
mod sort_field;
mod sort_key;
mod sort_spec;
mod sort_words;
mod target;
mod value;

pub use kind::Kind;
pub use limit::Limit;
pub use order::{rank_cmp, sort_formats};
pub use row::Row;
pub use sort_fault::SortFault;
pub use sort_field::SortField;
pub use sort_key::SortKey;
pub use sort_spec::SortSpec;
pub use sort_words::{SortWords, read_sort};
