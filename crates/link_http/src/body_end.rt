use http_reply::Stop;

/// How a body ends.
#[derive(Clone, Copy)]
pub enum BodyEnd {
    /// The share is full.
    Full,
    /// The body stopped before that, after so many bytes.
    Stopped { stop: Stop, passed: u64 },
}
