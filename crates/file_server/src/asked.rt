use crate::byte_range::ByteRange;

/// What the head of a request asks for.
#[derive(Clone, Copy, Debug, PartialEq, Eq)]
pub struct Asked<'a> {
    /// The target, as it stands in the request.
    pub target: &'a [u8],
    /// The range, where one is named that can be read.
    pub range: Option<ByteRange>,
}
