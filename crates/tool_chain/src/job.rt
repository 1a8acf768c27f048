use text_base::Text;

/// What a child tool is asked for: a program with its arguments, the files that it reads, and the
/// file that it makes.
#[derive(Drop)]
pub struct ToolJob {
    pub program: Text,
    pub args: Vec<Text>,
    pub inputs: Vec<Text>,
    pub output: Option<Text>,
}
