ghost use Rattle.std.specs.Prelude.{◌≡◌, ◌+◌, ◌<◌, ◌≤◌, length};
ghost use Rattle.std.specs.List.{prefix_len};
ghost use Rattle.http_reply.specs.Chunked.{chunk_line, line_size, is_in_line};

use httparse::Status;

/// The line before a chunk.
#[derive(Clone, Copy)]
pub enum LineRead {
    Whole { size: u64, len: usize },
    Open,
    Unreadable,
}

const LINE_ROOM: usize = 256;

/// How many bytes stand before the first LF.
fn line_len(bytes: &[u8]) -> usize
    ensures value { result ≡ prefix_len is_in_line bytes.now }
    ensures within { result ≤ length bytes.now }
{
    for (i, byte) in bytes.iter().enumerate() {
        if *byte == b'\n' {
            return i;
        }
    }
    bytes.len()
}

/// The size that a line tells.
fn read_size(line: &[u8]) -> Option<u64>
    ensures { result ≡ line_size line.now }
{
    match httparse::parse_chunk_size(line) {
        Ok(Status::Complete((len, size))) => { if len == line.len() { Some(size) } else { None } }
        Ok(Status::Partial) => None,
        Err(_) => None,
    }
}

/// The line at the front.
pub fn read_line(bytes: &[u8]) -> LineRead
    ensures { result ≡ chunk_line bytes.now }
{
    let len = line_len(bytes);
    if len >= LINE_ROOM {
        return LineRead::Unreadable;
    }
    if len == bytes.len() {
        return LineRead::Open;
    }
    match read_size(&bytes[..len + 1]) {
        Some(size) => LineRead::Whole { size, len: len + 1 },
        None => LineRead::Unreadable,
    }
}
