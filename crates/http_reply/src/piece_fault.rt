use text_base::FolderCall;
use thiserror::Error;

/// Why one try to fetch a piece failed.
#[derive(Clone, Copy, Debug, PartialEq, Eq, Error)]
pub enum PieceFault {
    /// The dialer opened no connection.
    #[error("connection failed")]
    Dial,
    /// The request could not be sent.
    #[error("sending failed")]
    Send,
    /// The reply could not be received.
    #[error("receiving failed")]
    Recv,
    /// The reply has another status than one of a part or a whole.
    #[error("HTTP status {code}")]
    Status { code: u16 },
    /// The reply ends before the total; `got` bytes of the piece are there.
    #[error("cut short at {got}")]
    CutShort { got: u64, told: Option<u64> },
    /// What stands at this place of the reply cannot be read.
    #[error("bad reply at byte {at}")]
    BadHead { at: u64 },
    /// The heads of the reply are too long.
    #[error("reply head too long")]
    HeadLong,
    /// The reply tells no total.
    #[error("no length")]
    NoLength,
    /// The reply is for another range than the one that was asked.
    #[error("bad range")]
    BadRange { asked: u64, told: Option<u64> },
    /// The total is another than an earlier reply told.
    #[error("size changed from {before} to {now}")]
    SizeChanged { before: u64, now: u64 },
    /// The body is encoded.
    #[error("encoded reply")]
    Encoded,
    /// The URL cannot be read, or has no host.
    #[error("bad URL")]
    Url,
    /// The URL is not of the scheme `http`.
    #[error("scheme not supported")]
    Scheme,
    /// A call of the taker's folder failed.
    #[error("a call of the folder failed")]
    Folder { call: FolderCall },
    /// Memory ran out.
    #[error("memory ran out")]
    OutOfMemory,
    /// The piece is longer than a piece may be.
    #[error("piece too long")]
    PieceLong { told: u64 },
}
