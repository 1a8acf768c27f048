//! The top call: what the words of a command line ask for, over any source of information and any sinks.
#![tactic(auto)]

mod built;
mod command;
mod fault_line;
mod info_mem;
mod lines;
mod reading;
mod report;
mod run_fault;
mod sink;
mod sink_mem;
mod source;
mod writing;

pub use command::run;
pub use info_mem::InfoMem;
pub use job_plan::JobFault;
pub use report::{End, JobEnd, Report, status};
pub use run_fault::{InfoFault, RunFault, Which};
pub use sink::Sink;
pub use sink_mem::SinkMem;
pub use source::InfoSource;
pub use word_list::OptionFault;
