//! The serving of files over connections.
ghost use Rattle.std.specs.Prelude.{OnOk, IfSome, take};
ghost use Rattle.std.specs.Io.KnownBytes.{Appends};
ghost use Rattle.file_server.specs.Reply.{IsSound, head};

use crate::path::file_path;
use crate::reply::Reply;
use crate::request::read_request;
use std::fs::{self, Files, OpenFile};
use std::io::{self, BufRead, BufReader, ErrorKind, Read, Seek, SeekFrom, Write};
use std::net::{OpenListener, OpenStream};
use std::time::Duration;

/// The most bytes of a request's head that are read.
const HEAD_ROOM: u64 = 65_536;

/// The most seconds that a connection may be silent.
const PATIENCE: u64 = 20;

/// Serves the files below a folder over so many connections, one after another, and closes each after
/// its reply.
pub fn serve<R, L>(rt: &R, listener: &L, folder: &str, turns: u64) -> io::Result<()>
where
    R: Files + AllocGlobal,
    L: OpenListener,
    L::Stream: Read + Write + OpenStream,
{
    for _ in 0..turns {
        let (mut stream, _) = listener.accept()?;
        stream.set_read_timeout(Some(Duration::from_secs(PATIENCE)))?;
        stream.set_write_timeout(Some(Duration::from_secs(PATIENCE)))?;
        answer(rt, &mut stream, folder)?;
    }
    Ok(())
}

/// Reads one request and sends its reply.
fn answer<R: Files + AllocGlobal, S: Read + Write>(
    rt: &R,
    stream: &mut S,
    folder: &str,
) -> io::Result<()> {
    let mut head = Vec::new(rt.alloc());
    read_head(
        BufReader::new(rt.alloc(), &mut *stream)?.take(HEAD_ROOM),
        &mut head,
    )?;
    let Some(asked) = read_request(&head) else {
        return send_head(rt, stream, Reply::Refused);
    };
    let Some(path) = file_path(rt.alloc(), asked.target)? else {
        return send_head(rt, stream, Reply::Absent);
    };
    let path = format!(in rt.alloc(); "{folder}/{path}")?;
    let Some((mut file, len)) = open_file(rt, path.as_str())? else {
        return send_head(rt, stream, Reply::Absent);
    };
    let reply = Reply::new(asked.range, Some(len));
    send_head(rt, stream, reply)?;
    file.seek(SeekFrom::Start(reply.first()))?;
    send_body(file, reply.count(), stream)
}

/// Reads lines up to the first empty one.
fn read_head<B: BufRead + Drop>(mut lines: B, head: &mut Vec<u8>) -> io::Result<()> {
    for _ in 0..HEAD_ROOM {
        let start = head.len();
        lines.read_until(b'\n', head)?;
        if matches!(&head[start..], b"" | b"\n" | b"\r\n") {
            break;
        }
    }
    Ok(())
}

/// Opens a file of the system, with its length. None where there is none.
fn open_file<R: Files>(rt: &R, path: &str) -> io::Result<Option<(R::File, u64)>> {
    match fs::open(rt, path) {
        Ok(file) => {
            let about = file.metadata()?;
            Ok(about.is_file().then_some((file, about.len())))
        }
        Err(fault) if is_absence(fault.kind()) => Ok(None),
        Err(fault) => Err(fault),
    }
}

/// Whether an error says that there is no such file.
fn is_absence(kind: ErrorKind) -> bool {
    matches!(kind, ErrorKind::NotFound | ErrorKind::NotADirectory)
}

/// Sends the head of a reply.
fn send_head<R: AllocGlobal, S: Write>(rt: &R, stream: &mut S, reply: Reply) -> io::Result<()>
    requires { IsSound reply }
    ensures { OnOk result (Appends (S.contents stream.old) (S.contents stream.new) (head reply)) }
{
    stream.write_all(&reply.head(rt.alloc())?)
}

/// Sends so many bytes of a file, from where it stands.
fn send_body<F: Read + Drop, S: Write>(file: F, count: u64, stream: &mut S) -> io::Result<()>
    ensures { OnOk result (IfSome (F.remaining file)
        (λ bytes. Appends (S.contents stream.old) (S.contents stream.new) (take count bytes))) }
{
    let sent = io::copy(&mut file.take(count), stream)?;
    if sent < count {
        return Err(io::Error::from(ErrorKind::UnexpectedEof));
    }
    Ok(())
}
