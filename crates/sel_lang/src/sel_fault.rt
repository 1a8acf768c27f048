use thiserror::Error;

/// Why a text is no selector, with the place in bytes from 0.
#[derive(Clone, Copy, Debug, PartialEq, Eq, Error)]
pub enum SelFault {
    /// The first token that is not allowed there, or the text's length where it ends too early.
    #[error("unexpected at {at}")]
    Syntax { at: usize },
    /// An unknown field of a filter.
    #[error("unknown field at {at}")]
    Field { at: usize },
    /// A value that is no size, or is out of range.
    #[error("bad value at {at}")]
    Value { at: usize },
    /// A text that is no regular expression, or is nested too deep.
    #[error("bad pattern at {at}")]
    Regex { at: usize },
    /// The bracket that opens group 65.
    #[error("too deep at {at}")]
    Depth { at: usize },
    #[error("memory ran out")]
    OutOfMemory,
}
