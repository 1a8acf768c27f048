//! What a dialer in memory answers.
ghost use Rattle.std.specs.Prelude.{◌≡◌, IfOk, option_copied, string_bytes, drop, length};
ghost use Rattle.link_http.specs.Replies.{reply_of, found_reply, honest_reply, honest_head, status_reply, zeros, cut_to};

use crate::turn::Turn;
use std::alloc::Global;
use text_base::OutOfMemory;

/// The reply at this turn, by the bytes that are asked and the place that they are asked from.
pub fn reply_to(
    alloc: Global,
    turn: &Turn,
    found: Option<&[u8]>,
    from: u64,
) -> Result<Vec<u8>, OutOfMemory>
    ensures { IfOk result (λ reply. reply.items ≡ reply_of turn.now (option_copied found.entry) from) }
{
    match turn {
        Turn::Raw(bytes) => Ok(Vec::from_slice(alloc, bytes)?),
        Turn::Status(code) => status(alloc, *code),
        Turn::Whole => found_reply(alloc, None, found, 0),
        Turn::Cut(n) => found_reply(alloc, Some(*n), found, from),
        _ => found_reply(alloc, None, found, from),
    }
}

/// What is asked, if it is in the world, with so much room for its body.
fn found_reply(
    alloc: Global,
    room: Option<u64>,
    found: Option<&[u8]>,
    from: u64,
) -> Result<Vec<u8>, OutOfMemory>
    ensures { IfOk result (λ reply. reply.items ≡ found_reply room (option_copied found.entry) from) }
{
    match found {
        Some(bytes) => honest(alloc, room, bytes, from),
        None => status(alloc, 404),
    }
}

/// What an honest server that knows ranges answers, with so much room for the body.
fn honest(alloc: Global, room: Option<u64>, bytes: &[u8], from: u64) -> Result<Vec<u8>, OutOfMemory>
    ensures { IfOk result (λ reply. reply.items ≡ honest_reply room bytes.now from) }
{
    let head = honest_head(alloc, from, bytes.len() as u64)?;
    let mut reply = Vec::from_slice(alloc, head.as_bytes())?;
    reply.extend_from_slice(cut_to(room, behind(bytes, from)))?;
    Ok(reply)
}

/// The head of an honest reply.
fn honest_head(alloc: Global, from: u64, total: u64) -> Result<String, OutOfMemory>
    ensures { IfOk result (λ head. string_bytes head ≡ honest_head from total) }
{
    if from == 0 {
        return Ok(format!(in alloc; "HTTP/1.1 200 OK\r\nContent-Length: {total}\r\n\r\n")?);
    }
    if from < total {
        let last = total - 1;
        let count = total - from;
        return Ok(format!(in alloc;
            "HTTP/1.1 206 Partial Content\r\nContent-Range: bytes {from}-{last}/{total}\r\nContent-Length: {count}\r\n\r\n"
        )?);
    }
    Ok(format!(in alloc;
        "HTTP/1.1 416 Range Not Satisfiable\r\nContent-Range: bytes */{total}\r\nContent-Length: 0\r\n\r\n"
    )?)
}

/// The bytes from a place on.
fn behind(bytes: &[u8], from: u64) -> &[u8]
    ensures { result.now ≡ drop from bytes.now }
{
    if from >= bytes.len() as u64 {
        return &[];
    }
    &bytes[from as usize..]
}

/// All bytes, or so many of them.
fn cut_to(room: Option<u64>, bytes: &[u8]) -> &[u8]
    ensures { result.now ≡ cut_to room bytes.now }
{
    match room {
        Some(n) => if n < bytes.len() as u64 {
            &bytes[..n as usize]
        } else {
            bytes
        },
        None => bytes,
    }
}

/// A status without a body.
fn status(alloc: Global, code: u16) -> Result<Vec<u8>, OutOfMemory>
    ensures { IfOk result (λ reply. reply.items ≡ status_reply code) }
{
    let zeros = zeros(code);
    let head = format!(in alloc; "HTTP/1.1 {zeros}{code} Status\r\nContent-Length: 0\r\n\r\n")?;
    Ok(Vec::from_slice(alloc, head.as_bytes())?)
}

/// The zeros in front of a code of less than three digits.
fn zeros(code: u16) -> &'static str
    ensures { result.now ≡ zeros code }
{
    if code < 10 {
        "00"
    } else if code < 100 {
        "0"
    } else {
        ""
    }
}
