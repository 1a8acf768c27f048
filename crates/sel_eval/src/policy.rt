use crate::streams::Streams;

/// What choices depend on beside the selector and the formats that it looks at.
#[derive(Drop)]
pub(crate) struct Policy<'a> {
    /// What a merge may take.
    pub(crate) streams: &'a Streams,
    /// Whether of the item's formats some have video and some have audio.
    pub(crate) both: bool,
}
