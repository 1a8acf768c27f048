/// What the Content-Range of a reply tells.
#[derive(Clone, Copy, Debug, PartialEq, Eq)]
pub enum Range {
    /// These bytes of a total, the last one with them.
    Part { first: u64, last: u64, total: u64 },
    /// Some bytes of a total that is not told.
    Open,
    /// None of the bytes of a total.
    Past { total: u64 },
    /// Nothing that can be read.
    Unreadable,
}
