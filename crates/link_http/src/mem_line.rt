use crate::mem_dial::MemDial;
use std::alloc::Global;
use text_base::OutOfMemory;

/// A connection of a dialer in memory.
#[derive(Drop)]
pub struct MemLine {
    pub dial: MemDial,
    /// The number of its dial, and of its turn.
    pub turn: usize,
    pub sends: u64,
    pub receives: u64,
    /// What was sent since the last request.
    pub sent: Vec<u8>,
    pub reply: Vec<u8>,
    /// How many bytes of the reply were received.
    pub at: usize,
}

impl MemLine {
    ghost use Rattle.std.specs.Prelude.{◌≡◌, ◌≤◌, ◌<◌, [], IfOk, length, take, drop};
    ghost use Rattle.link_http.specs.Memory.{connection_of};

    pub fn new(alloc: Global, host: &str, port: u16, turn: usize) -> Result<MemLine, OutOfMemory>
        ensures fresh { IfOk result (λ line. connection_of line
            ≡ record { place = record { host = host.now; port = port }; dial = turn; sent = []; left = [] }) }
        ensures calls { IfOk result (λ line. (line.sends ≡ 0) × (line.receives ≡ 0)) }
    {
        Ok(MemLine {
            dial: MemDial::new(alloc, host, port)?,
            turn,
            sends: 0,
            receives: 0,
            sent: Vec::new(alloc),
            reply: Vec::new(alloc),
            at: 0,
        })
    }

    /// Reads what of the reply fits in the buffer.
    pub fn read(&mut self, buf: &mut [u8]) -> usize
        ensures fits { result ≤ length buf.new }
        ensures kept { self.new ≡ record self.old { at = self.new.at } }
        ensures came { take result buf.new ≡ take result (drop self.old.at self.old.reply.items) }
        ensures within { result ≤ length (drop self.old.at self.old.reply.items) }
        ensures rest { drop self.new.at self.new.reply.items ≡ drop result (drop self.old.at self.old.reply.items) }
        ensures ended { result ≡ 0 → 0 < length buf.old → drop self.old.at self.old.reply.items ≡ [] }
    {
        let from = self.at.min(self.reply.len());
        let (_, rest) = self.reply.as_slice().split_at(from);
        let n = rest.len().min(buf.len());
        let (came, _) = rest.split_at(n);
        let (front, _) = buf.split_at_mut(n);
        front.copy_from_slice(came);
        self.at = from + n;
        n
    }
}
