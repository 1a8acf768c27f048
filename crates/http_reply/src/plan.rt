/// What a final head asks of the body behind it.
#[derive(Clone, Copy, Debug, PartialEq, Eq)]
pub enum Plan {
    /// No body: the whole is there already.
    Nothing {
        total: u64,
    },
    /// The whole, of a length or in chunks that tell it by their end.
    Whole {
        total: Option<u64>,
    },
    /// So many bytes from the place that was asked.
    Ranged {
        count: u64,
        total: u64,
        chunked: bool,
    },
}
