//! Dialers whose replies wait for each other.
ghost use Rattle.std.specs.Prelude.{[], Some, None, false, if◌then◌else◌};

use link_http::Dialer;
use std::sync::atomic::{AtomicU64, Ordering};
use text_base::{Failed, FolderFault};

/// How many turns a reply waits at most, so that each run ends whatever the schedule.
const LONGEST_WAIT: u64 = 200_000_000;

/// What the dialers of a test share: the reply for each path of one digit, how many requests were asked, and
/// whether the last of the replies was read to its end.
#[derive(Drop)]
pub struct Stage {
    pub replies: Vec<Vec<u8>>,
    pub asked: AtomicU64,
    pub ended: AtomicU64,
}

/// What the reply of a dialer waits for.
#[derive(Clone, Copy, PartialEq, Eq)]
pub enum Waits {
    /// Two requests, and it fails where they do not come.
    ForTwoRequests,
    /// The end of the last reply, but for the last reply itself.
    ForTheLast,
}

#[derive(Drop)]
pub struct Staged<'a> {
    pub stage: &'a Stage,
    pub waits: Waits,
    pub piece: usize,
    pub at: usize,
    pub open: bool,
    pub faults: u64,
}

/// Waits until the word has this value or a greater one, and says whether it has.
fn wait_for(word: &AtomicU64, value: u64) -> bool {
    for _ in 0..LONGEST_WAIT {
        if word.load(Ordering::SeqCst) >= value {
            return true;
        }
    }
    false
}

impl Stage {
    /// Waits as a reply for this piece does, and says whether it comes.
    fn comes(&self, waits: Waits, piece: usize) -> bool {
        if waits == Waits::ForTwoRequests {
            return wait_for(&self.asked, 2);
        }
        if piece.saturating_add(1) < self.replies.len() {
            wait_for(&self.ended, 1);
        }
        true
    }
}

impl<'a> Dialer for Staged<'a> {
    ghost wire = { λ d. record {
      tells = false;
      faults = d.faults;
      steady = false;
      serves = false;
      world = λ url. None;
      dials = [];
      talks = [];
      line = if d.open then Some (record { place = record { host = []; port = 0 }; dial = 0; sent = []; left = [] }) else None;
    } };

    fn dial(&mut self, _host: &str, _port: u16) -> Result<(), FolderFault> {
        self.open = true;
        self.at = 0;
        Ok(())
    }

    fn send(&mut self, bytes: &[u8]) -> Result<usize, FolderFault> {
        // The request begins with `GET /` and the piece's digit.
        self.piece = match bytes.get(5) {
            Some(digit) => digit.saturating_sub(b'0') as usize,
            None => 0,
        };
        self.stage.asked.fetch_add(1, Ordering::SeqCst);
        Ok(bytes.len())
    }

    fn recv(&mut self, buf: &mut [u8]) -> Result<usize, Failed> {
        if !self.stage.comes(self.waits, self.piece) {
            self.faults = self.faults.saturating_add(1);
            return Err(Failed);
        }
        let Some(reply) = self.stage.replies.get(self.piece) else {
            return Ok(0);
        };
        let from = self.at.min(reply.len());
        let (_, rest) = reply.as_slice().split_at(from);
        let n = rest.len().min(buf.len());
        let (came, left) = rest.split_at(n);
        let (front, _) = buf.split_at_mut(n);
        front.copy_from_slice(came);
        self.at = from + n;
        if left.is_empty() && self.piece.saturating_add(1) == self.stage.replies.len() {
            self.stage.ended.store(1, Ordering::SeqCst);
        }
        Ok(n)
    }

    fn hang_up(&mut self) {
        self.open = false;
    }
}
