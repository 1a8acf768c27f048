use std::alloc::AllocError;
use thiserror::Error;

/// Why no pattern was made.
#[derive(Clone, Copy, Debug, PartialEq, Eq, Error)]
pub enum PatternFault {
    /// The text is no regular expression, or is nested deeper than 250.
    #[error("no pattern")]
    NotPattern,
    /// Memory ran out, or the pattern would take more than its limit.
    #[error("memory ran out")]
    OutOfMemory,
}

impl From<regex::Error> for PatternFault {
    ghost use Rattle.text_pattern.specs.Patterns.{IsFaultOf};

    ghost from_gives = { IsFaultOf };

    fn from(error: regex::Error) -> Self {
        match error {
            regex::Error::Syntax(_) => PatternFault::NotPattern,
            _ => PatternFault::OutOfMemory,
        }
    }
}
