//! A dialer that replays one reply, in pieces of one size.
ghost use Rattle.std.specs.Prelude.{[], Some, None, false, if◌then◌else◌};

use link_http::Dialer;
use text_base::{Failed, FolderFault};

#[derive(Drop)]
pub struct Replay {
    pub reply: Vec<u8>,
    pub piece: usize,
    pub at: usize,
    pub open: bool,
    pub sent: Vec<u8>,
}

impl Dialer for Replay {
    ghost wire = { λ d. record {
      tells = false;
      faults = 0;
      steady = false;
      serves = false;
      world = λ url. None;
      dials = [];
      talks = [];
      line = if d.open then Some (record { place = record { host = []; port = 0 }; dial = 0; sent = []; left = [] }) else None;
    } };

    fn dial(&mut self, _host: &str, _port: u16) -> Result<(), FolderFault> {
        self.open = true;
        Ok(())
    }

    fn send(&mut self, bytes: &[u8]) -> Result<usize, FolderFault> {
        match self.sent.extend_from_slice(bytes) {
            Ok(()) => Ok(bytes.len()),
            Err(_) => Err(FolderFault::OutOfMemory),
        }
    }

    fn recv(&mut self, buf: &mut [u8]) -> Result<usize, Failed> {
        let from = self.at.min(self.reply.len());
        let (_, rest) = self.reply.as_slice().split_at(from);
        let n = rest.len().min(buf.len()).min(self.piece);
        let (came, _) = rest.split_at(n);
        let (front, _) = buf.split_at_mut(n);
        front.copy_from_slice(came);
        self.at = from + n;
        Ok(n)
    }

    fn hang_up(&mut self) {
        self.open = false;
    }
}
