//! What readers of texts share: why they give up, and in specs/ what a reader is and which laws it may have.
#![tactic(auto)]

mod read_error;

pub use read_error::ReadError;
