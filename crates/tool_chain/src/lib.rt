//! Child tools: their jobs, what they may change, a chain of them, and tools in memory.
#![tactic(auto)]

mod act;
mod chain;
mod child;
mod fault;
mod job;
mod memory;
mod run;
mod tools;
mod turn;

pub use chain::run_chain;
pub use fault::{ToolCause, ToolFault};
pub use job::ToolJob;
pub use memory::ToolsMem;
pub use run::ToolRun;
pub use tools::Tools;
pub use turn::ToolTurn;
