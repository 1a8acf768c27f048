//! The last bytes that a child wrote on its error output.
ghost use Rattle.std.specs.Prelude.{◌≡◌, ◌+◌, ◌≤◌, length};

use std::alloc::{AllocError, Global};
use std::io::{ErrorKind, Read};

/// How many bytes are kept.
const KEPT: usize = 4096;

/// The last bytes of a stream. All room is taken at the start.
#[derive(Drop)]
pub(crate) struct LastWords {
    /// Room for what is kept, and behind it for what is read at once.
    room: Vec<u8>,
    /// How many bytes at the front of the room are kept.
    len: usize,
    /// Whether bytes before them were lost.
    is_cut: bool,
    ghost roomy: { length room.items ≡ 8192 },
    ghost short: { len ≤ 4096 },
}

impl LastWords {
    pub(crate) fn new(alloc: Global) -> Result<LastWords, AllocError> {
        Ok(LastWords {
            room: vec![in alloc; 0; 2 * KEPT]?,
            len: 0,
            is_cut: false,
        })
    }

    /// Reads a stream to its end, or to the first read that fails.
    pub(crate) fn take_all<R: Read>(&mut self, stream: &mut R) {
        for _ in 0..u64::MAX {
            match stream.read(&mut self.room[self.len..]) {
                Ok(0) => return,
                Ok(came) => self.keep(came),
                Err(fault) if fault.kind() == ErrorKind::Interrupted => {}
                Err(_) => return,
            }
        }
    }

    /// Keeps the last of what is there once `came` bytes are behind it.
    fn keep(&mut self, came: usize)
        requires { self.old.len + came ≤ 8192 }
    {
        let end = self.len + came;
        if end <= KEPT {
            self.len = end;
            return;
        }
        self.room.copy_within(end - KEPT..end, 0);
        self.len = KEPT;
        self.is_cut = true;
    }

    fn bytes(&self) -> &[u8] {
        &self.room[..self.len]
    }

    /// Whether nothing is kept, or the last line is whole.
    pub(crate) fn ends_a_line(&self) -> bool {
        self.bytes().last().is_none_or(|byte| *byte == b'\n')
    }
}

/// What is kept, from its first whole line on where bytes before it were lost and a line is whole.
pub(crate) fn whole_lines(words: &LastWords) -> &[u8] {
    let bytes = words.bytes();
    if !words.is_cut {
        return bytes;
    }
    match bytes.iter().position(|byte| *byte == b'\n') {
        Some(at) if at + 1 < bytes.len() => &bytes[at + 1..],
        _ => bytes,
    }
}
