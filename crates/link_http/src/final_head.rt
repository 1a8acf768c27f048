use httparse::spans::ResponseSpans;

/// Where the final head of a reply stands in the bytes that came.
#[derive(Clone, Copy)]
pub struct FinalHead {
    pub start: usize,
    pub spans: ResponseSpans,
}
