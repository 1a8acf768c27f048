/// The bytes that a request asks for, from the first on, and to the last one with it where that is named.
#[derive(Clone, Copy, Debug, PartialEq, Eq)]
pub struct ByteRange {
    pub first: u64,
    pub last: Option<u64>,
}
