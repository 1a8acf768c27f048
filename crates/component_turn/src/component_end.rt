use link_http::PieceFault;

/// How a component's turn ended.
#[derive(Clone, Copy, Debug, PartialEq, Eq)]
pub enum ComponentEnd {
    /// It stands whole under its name.
    Whole,
    /// The first of its pieces that failed, counted from 0: how often it was tried, and why it failed last.
    Failed {
        piece: usize,
        tries: u32,
        cause: PieceFault,
    },
}
