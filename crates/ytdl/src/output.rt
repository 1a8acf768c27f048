ghost use Rattle.std.specs.Prelude.{◌≡◌, false};

use std::io::{ErrorKind, Write};
use text_base::{FaultCount, FolderFault};
use ytdl_core::Sink;

/// A stream that bytes are written to: it tells what the stream tells.
#[derive(Drop)]
pub struct Output<W: Write + Drop> {
    inner: W,
    faults: FaultCount,
}

impl<W: Write + Drop> Output<W> {
    pub fn new(inner: W) -> Self
        ensures faults { ⟦<Output<W> as Sink>⟧.faults result ≡ 0 }
        ensures written { ⟦<Output<W> as Sink>⟧.written result ≡ W.contents inner }
    {
        Output {
            inner,
            faults: FaultCount::new(),
        }
    }
}

impl<W: Write + Drop> Sink for Output<W> {
    ghost written = { λ s. W.contents s.inner };

    ghost faults = { λ s. s.faults.count };

    ghost refusals = { λ s. 0 };

    ghost is_steady = { λ s. false };

    fn put(&mut self, bytes: &[u8]) -> Result<(), FolderFault> {
        let mut rest = bytes;
        for _ in 0..u64::MAX {
            if rest.is_empty() {
                return Ok(());
            }
            match self.inner.write(rest) {
                Ok(0) => break,
                Ok(n) => rest = &rest[n..],
                Err(fault) if fault.kind() == ErrorKind::Interrupted => {}
                Err(_) => break,
            }
        }
        self.faults.rise();
        Err(FolderFault::Failed)
    }
}
