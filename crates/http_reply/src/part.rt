/// Where in a chunked body the reader stands.
#[derive(Clone, Copy)]
pub enum Part {
    /// In a body of a length, of which so much is left.
    Whole { left: u64 },
    Line,
    Data { left: u64 },
    Gap,
}
