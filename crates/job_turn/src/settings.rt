/// How jobs are done.
#[derive(Clone, Copy, Debug, PartialEq, Eq)]
pub struct Settings {
    /// Whether each component is begun anew, though it could go on under its record.
    pub fresh: bool,
    /// Whether the components stay beside the file that was made of them.
    pub keep: bool,
    /// How many workers there are at most.
    pub workers: usize,
    /// How often the only piece of a component is tried again.
    pub retries: u32,
    /// How often a piece of a list of fragments is tried again.
    pub fragment_retries: u32,
}
