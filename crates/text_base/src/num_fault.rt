use thiserror::Error;

/// Why no number was read.
#[derive(Clone, Copy, Debug, PartialEq, Eq, Error)]
pub enum NumFault {
    /// No number begins there.
    #[error("no number")]
    NotNumber,
    /// The number is out of range.
    #[error("number out of range")]
    NumberRange,
    /// The number's spelling has over 64 bytes.
    #[error("number too long")]
    NumberLong,
}
