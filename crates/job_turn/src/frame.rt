use text_base::Text;
use tool_chain::ToolJob;

/// What a job has beside the pieces of its components: what is made of them, and under which names.
#[derive(Drop)]
pub(crate) struct Frame {
    pub final_name: Text,
    /// The names of its components.
    pub components: Vec<Text>,
    pub steps: Vec<ToolJob>,
    pub execs: Vec<ToolJob>,
    /// Whether the components stay.
    pub keep: bool,
}
