/// A piece that is there, whole.
#[derive(Clone, Copy, Debug, PartialEq, Eq)]
pub struct Fetched {
    /// How many bytes it has.
    pub total: u64,
}
