//! Drafts of jobs: all of them but their pieces.

use crate::fault::JobFault;
use info_item::Combo;
use text_base::Text;
use tool_chain::ToolJob;

/// A job without its pieces.
#[derive(Drop)]
pub(crate) struct Draft {
    /// What the template gives.
    pub(crate) name: Text,
    pub(crate) combo: Combo,
    pub(crate) final_name: Text,
    /// The names of the files that are fetched.
    pub(crate) components: Vec<Text>,
    pub(crate) steps: Vec<ToolJob>,
    pub(crate) execs: Vec<ToolJob>,
    pub(crate) printed: Vec<Text>,
    /// The exact names of its family.
    pub(crate) exact: Vec<Text>,
}

/// What became of a choice of an item by itself.
#[derive(Drop)]
pub(crate) struct Drafted {
    /// The item's place.
    pub(crate) item: usize,
    pub(crate) outcome: Result<Draft, JobFault>,
}
