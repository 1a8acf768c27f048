use super::*;
use std::fs;
use std::io::{self, Error, Write};
use std::test::Fail;
use text_base::FolderFault;
use ytdl_core::{InfoSource, Sink};

#[test]
fn a_file_is_read_to_its_end(rt: HostRuntime) -> Result<(), Fail> {
    fs::write(&rt, " info.json ", "{\"id\":1}")?;
    let mut info = InfoFile::new(SystemOpener { rt: &rt });
    assert!(rt; info.open("info.json").is_err());
    assert!(rt; info.open(" info.json ").is_ok());
    let mut buf = [0u8; 64];
    assert_eq!(rt; info.read(&mut buf).ok(), Some(8));
    assert_eq!(rt; info.read(&mut buf).ok(), Some(0));
    Ok(())
}

#[test]
fn bytes_are_written_to_the_streams(rt: HostRuntime) {
    let mut out = Output::new(rt.stdout());
    assert!(rt; out.put(b"").is_ok());
    let mut err = Output::new(rt.stderr());
    assert!(rt; err.put(b"line\n").is_ok());
}

/// Takes three bytes a call, after one call that was interrupted, until it is full.
#[derive(Drop)]
struct Hesitant {
    taken: Vec<u8>,
    interrupted: bool,
    room: usize,
}

impl Write for Hesitant {
    fn write(&mut self, bytes: &[u8]) -> io::Result<usize> {
        if !self.interrupted {
            self.interrupted = true;
            return Err(Error::from(ErrorKind::Interrupted));
        }
        let left = self.room.saturating_sub(self.taken.len());
        let count = bytes.len().min(left).min(3);
        self.taken.extend_from_slice(&bytes[..count])?;
        Ok(count)
    }

    fn flush(&mut self) -> io::Result<()> {
        Ok(())
    }
}

#[test]
fn short_and_interrupted_writes_are_gone_on_with(rt: HostRuntime) {
    let writer = Hesitant {
        taken: Vec::new(rt.alloc()),
        interrupted: false,
        room: 12,
    };
    let mut out = Output::new(writer);
    assert!(rt; out.put(b"ten bytes\n").is_ok());
    assert_eq!(rt; out.put(b"four"), Err(FolderFault::Failed));
}
