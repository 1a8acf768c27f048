//! Jobs.

use crate::fault::JobFault;
use info_item::Combo;
use job_pieces::Component;
use text_base::Text;
use tool_chain::ToolJob;

/// One file that is made of an item.
#[derive(Drop)]
pub struct Job {
    /// The item's place.
    pub item: usize,
    pub combo: Combo,
    /// The name that the finished file gets.
    pub final_name: Text,
    /// The files that are fetched.
    pub components: Vec<Component>,
    /// The children that make the finished file of them. The last one's output gets the final name; without a step the only component has it.
    pub steps: Vec<ToolJob>,
    /// The children that are run for the finished file.
    pub execs: Vec<ToolJob>,
    /// The lines that are printed.
    pub printed: Vec<Text>,
}

/// What becomes of one choice of an item.
#[derive(Drop)]
pub enum JobOr {
    Job(Job),
    Fault {
        /// The item's place.
        item: usize,
        fault: JobFault,
    },
}
