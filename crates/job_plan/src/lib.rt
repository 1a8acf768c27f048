//! The jobs of items: which files are made of them, under which names, from which pieces and by which steps.
#![tactic(auto)]

mod clashes;
mod draft;
mod drafting;
mod fault;
mod fetchable;
mod filling;
mod finishing;
mod job;
mod jobs;
mod laws;
mod options;
mod stop;

pub use fault::{ClashWith, JobFault};
pub use job::{Job, JobOr};
pub use job_pieces::{Component, plan_text};
pub use job_steps::ExtRule;
pub use jobs::make_jobs;
pub use laws::{families_are_apart, jobs_are_whole};
pub use options::PlanOptions;
