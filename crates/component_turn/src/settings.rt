/// How components are fetched.
#[derive(Clone, Copy, Debug, PartialEq, Eq)]
pub struct Settings {
    /// Whether a component is begun anew, though it could go on under its record.
    pub fresh: bool,
    /// How many workers there are at most: never more than a component has pieces.
    pub workers: usize,
    /// How often a piece is tried again.
    pub retries: u32,
}
