ghost use Rattle.std.specs.Prelude.{◌≡◌, false, is_some, option_and_then};

use crate::opener::Opener;
use std::io::Read;
use text_base::{Failed, FaultCount};
use ytdl_core::InfoSource;

/// A file of information behind an opener: it tells what the opener and its reader tell.
#[derive(Drop)]
pub struct InfoFile<O: Opener + Drop> {
    opener: O,
    reader: Option<O::Reader>,
    faults: FaultCount,
}

impl<O: Opener + Drop> InfoFile<O> {
    /// A file that was not opened.
    pub fn new(opener: O) -> Self
        ensures closed { ⟦<InfoFile<O> as InfoSource>⟧.is_open result ≡ false }
        ensures faults { ⟦<InfoFile<O> as InfoSource>⟧.faults result ≡ 0 }
        ensures file { ⟦<InfoFile<O> as InfoSource>⟧.file result ≡ O.file opener }
    {
        InfoFile {
            opener,
            reader: None,
            faults: FaultCount::new(),
        }
    }
}

impl<O: Opener + Drop> InfoSource for InfoFile<O> {
    ghost file = { λ s. O.file s.opener };

    ghost left = { λ s. option_and_then O.Reader.Read.remaining s.reader };

    ghost is_open = { λ s. is_some s.reader };

    ghost faults = { λ s. s.faults.count };

    ghost is_steady = { λ s. false };

    fn open(&mut self, name: &str) -> Result<(), Failed> {
        match self.opener.open(name) {
            Ok(reader) => {
                self.reader = Some(reader);
                Ok(())
            }
            Err(Failed) => {
                self.faults.rise();
                Err(Failed)
            }
        }
    }

    fn read(&mut self, buf: &mut [u8]) -> Result<usize, Failed> {
        let Some(reader) = &mut self.reader else {
            unreachable!()
        };
        match reader.read(buf) {
            Ok(count) => Ok(count),
            Err(_) => {
                self.faults.rise();
                Err(Failed)
            }
        }
    }
}
