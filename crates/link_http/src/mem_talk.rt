use crate::mem_dial::MemDial;

/// A request to a dialer in memory, and its reply.
#[derive(Debug, Drop)]
pub struct MemTalk {
    pub dial: MemDial,
    /// The number of its dial.
    pub turn: usize,
    pub request: Vec<u8>,
    pub reply: Vec<u8>,
}
