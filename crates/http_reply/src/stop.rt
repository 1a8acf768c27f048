/// How a body stops.
#[derive(Clone, Copy)]
pub enum Stop {
    /// At its end.
    Last,
    /// Before its end, with the reply.
    Cut,
    /// At what cannot be read, at this offset in the reply.
    Bad { at: u64 },
    /// At a chunk that makes it longer than a piece may be.
    Long { told: u64 },
}
