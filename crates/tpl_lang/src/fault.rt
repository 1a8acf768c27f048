use thiserror::Error;

/// Why a text is no template. Places count bytes from 0; the first fault from the left is answered.
#[derive(Clone, Copy, Debug, PartialEq, Eq, Error)]
pub enum TplFault {
    /// What stands there can't stand there, or the text ends there inside a field.
    #[error("syntax at {at}")]
    Syntax { at: usize },
    /// A letter stands in the place of a type and is none, or the text ends there.
    #[error("type letter at {at}")]
    TypeLetter { at: usize },
    /// A date format has an unknown directive there: the place is that of its `%`.
    #[error("directive at {at}")]
    Directive { at: usize },
    #[error("memory ran out")]
    OutOfMemory,
}
