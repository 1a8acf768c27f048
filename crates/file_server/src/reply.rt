ghost use Rattle.std.specs.Prelude.{◌≡◌, ◌++◌, IfOk, OnOk, true, decimal};
ghost use Rattle.file_server.specs.Reply.{reply_to, reply_in, is_ordered, head, status, part_line, outside_line, length_line, IsSound, first_of, count_of};

use crate::byte_range::ByteRange;
use itoa::Buffer;
use std::alloc::{AllocError, Global};

/// What a request gets.
#[derive(Clone, Copy, Debug, PartialEq, Eq)]
pub enum Reply {
    /// It is none that is served.
    Refused,
    /// There is no such file.
    Absent,
    /// A file of so many bytes.
    Whole { len: u64 },
    /// Bytes of a file of so many, from the first to the last one with it.
    Part { first: u64, last: u64, len: u64 },
    /// Nothing, since a file of so many bytes ends before.
    Outside { len: u64 },
}

impl Reply {
    /// The reply to a request for a range of a file of so many bytes, or for one that is not there.
    pub fn new(range: Option<ByteRange>, len: Option<u64>) -> Reply
        ensures value { result ≡ reply_to range len }
        ensures sound { IsSound result }
    {
        match (len, range) {
            (None, _) => Reply::Absent,
            (Some(len), Some(range)) if is_ordered(range) => reply_in(range, len),
            (Some(len), _) => Reply::Whole { len },
        }
    }

    /// Where its body begins in the file.
    pub fn first(self) -> u64
        ensures { result ≡ first_of self }
    {
        match self {
            Reply::Part { first, .. } => first,
            _ => 0,
        }
    }

    /// How many bytes its body has.
    pub fn count(self) -> u64
        requires { IsSound self }
        ensures { result ≡ count_of self }
    {
        match self {
            Reply::Whole { len } => len,
            Reply::Part { first, last, .. } => last - first + 1,
            _ => 0,
        }
    }

    /// The head.
    pub fn head(self, alloc: Global) -> Result<Vec<u8>, AllocError>
        requires { IsSound self }
        ensures { IfOk result (λ text. text.items ≡ head self) }
    {
        let mut text = Vec::new(alloc);
        self.put_status(&mut text)?;
        put_length(&mut text, self.count())?;
        text.extend_from_slice(b"Connection: close\r\n")?;
        text.extend_from_slice(b"\r\n")?;
        Ok(text)
    }

    /// The status, and the range where there is one.
    fn put_status(self, text: &mut Vec<u8>) -> Result<(), AllocError>
        ensures { OnOk result (text.new.items ≡ text.old.items ++ status self) }
    {
        match self {
            Reply::Refused => text.extend_from_slice(b"HTTP/1.1 400 Bad Request\r\n"),
            Reply::Absent => text.extend_from_slice(b"HTTP/1.1 404 Not Found\r\n"),
            Reply::Whole { .. } => text.extend_from_slice(b"HTTP/1.1 200 OK\r\n"),
            Reply::Part { first, last, len } => {
                text.extend_from_slice(b"HTTP/1.1 206 Partial Content\r\n")?;
                put_part(text, first, last, len)?;
                Ok(())
            }
            Reply::Outside { len } => {
                text.extend_from_slice(b"HTTP/1.1 416 Range Not Satisfiable\r\n")?;
                put_outside(text, len)?;
                Ok(())
            }
        }
    }
}

/// Which bytes of how many.
fn put_part(text: &mut Vec<u8>, first: u64, last: u64, len: u64) -> Result<(), AllocError>
    ensures { OnOk result (text.new.items ≡ text.old.items ++ part_line first last len) }
{
    text.extend_from_slice(b"Content-Range: bytes ")?;
    put_number(text, first)?;
    text.extend_from_slice(b"-")?;
    put_number(text, last)?;
    text.extend_from_slice(b"/")?;
    put_number(text, len)?;
    text.extend_from_slice(b"\r\n")
}

/// None of so many bytes.
fn put_outside(text: &mut Vec<u8>, len: u64) -> Result<(), AllocError>
    ensures { OnOk result (text.new.items ≡ text.old.items ++ outside_line len) }
{
    text.extend_from_slice(b"Content-Range: bytes */")?;
    put_number(text, len)?;
    text.extend_from_slice(b"\r\n")
}

/// The length of the body.
fn put_length(text: &mut Vec<u8>, count: u64) -> Result<(), AllocError>
    ensures { OnOk result (text.new.items ≡ text.old.items ++ length_line count) }
{
    text.extend_from_slice(b"Content-Length: ")?;
    put_number(text, count)?;
    text.extend_from_slice(b"\r\n")
}

/// Whether a range ends where it begins, or later.
fn is_ordered(range: ByteRange) -> bool
    ensures { result ≡ is_ordered range }
{
    range.last.is_none_or(|last| range.first <= last)
}

/// What is there of a range in a file of so many bytes.
fn reply_in(range: ByteRange, len: u64) -> Reply
    requires { is_ordered range ≡ true }
    ensures value { result ≡ reply_in range len }
    ensures sound { IsSound result }
{
    if len <= range.first {
        return Reply::Outside { len };
    }
    let end = len - 1;
    Reply::Part {
        first: range.first,
        last: range.last.unwrap_or(end).min(end),
        len,
    }
}

/// A number in decimal digits.
fn put_number(text: &mut Vec<u8>, number: u64) -> Result<(), AllocError>
    ensures { OnOk result (text.new.items ≡ text.old.items ++ decimal number) }
{
    let mut buffer = Buffer::new();
    text.extend_from_slice(buffer.format(number).as_bytes())
}
