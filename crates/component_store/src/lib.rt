//! Components that are fetched in pieces: how one is begun, put together and tidied.
#![tactic(auto)]

mod assembling;
mod beginning;
mod begun;
mod clearing;
mod joining;
mod target;
mod tidying;

pub use begun::Begun;
pub use target::Target;
