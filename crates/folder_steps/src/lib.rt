//! Small calls over a whole folder: asking for a file, removing, writing anew, replacing.
#![tactic(auto)]

mod asking;
mod buffer;
mod comparing;
mod dropping;
mod making;
mod pouring;
mod reading;
mod refusal;
mod replacing;
mod settling;

pub use asking::{is_there, size_of};
pub use buffer::new_buffer;
pub use comparing::holds;
pub use dropping::{drop_name, drop_standing, sweep};
pub use making::{make, put_behind};
pub use pouring::pour;
pub use reading::read_all;
pub use refusal::store_fault;
pub use replacing::{publish_new, replace};
pub use settling::settle;
