mod memory;
mod replay;
mod sink;

use link_http::{Fetched, Header, Piece, PieceFault, fetch_from};
use replay::Replay;
use sink::Sink;
use std::alloc::Global;
use std::process::Abort;
use std::test::Fail;
use text_base::Text;

/// What one try comes to: its answer, the bytes taken, what is known, and what was sent.
#[derive(Drop)]
struct Outcome {
    answer: Result<Fetched, PieceFault>,
    bytes: Vec<u8>,
    known: Option<u64>,
    sent: Vec<u8>,
    open: bool,
}

fn header(alloc: Global, name: &str, value: &str) -> Result<Header, Fail> {
    Ok(Header {
        name: Text::new(alloc, name)?,
        value: Text::new(alloc, value)?,
    })
}

/// A piece with a header of its own and one that is not sent.
fn piece(alloc: Global) -> Result<Piece, Fail> {
    let mut headers = Vec::new(alloc);
    headers.push(header(alloc, "Referer", "http://127.0.0.1/")?)?;
    headers.push(header(alloc, "range", "bytes=1-")?)?;
    let url = Text::new(alloc, "http://127.0.0.1:8080/v/a?b=c#d")?;
    Ok(Piece { url, headers })
}

/// One try over this reply, which comes in pieces of this size.
fn tried(
    alloc: Global,
    reply: &[u8],
    size: usize,
    from: u64,
    known: Option<u64>,
) -> Result<Outcome, Fail> {
    let piece = piece(alloc)?;
    let mut dialer = Replay {
        reply: reply.to_vec(alloc)?,
        piece: size,
        at: 0,
        open: false,
        sent: Vec::new(alloc),
    };
    let mut sink = Sink {
        bytes: Vec::new(alloc),
    };
    let mut total = known;
    let answer = fetch_from(alloc, &mut dialer, &piece, from, &mut total, &mut sink);
    Ok(Outcome {
        answer,
        bytes: sink.bytes,
        known: total,
        sent: dialer.sent,
        open: dialer.open,
    })
}

fn crosses_threads<T: Send + Sync>(_value: &T) {}

#[test]
fn the_request_is_sent(rt: HostRuntime) -> Result<(), Fail> {
    let reply = b"HTTP/1.1 206 Partial Content\r\nContent-Range: bytes 3-5/6\r\n\r\ndef";
    let got = tried(rt.alloc(), reply, 100, 3, None)?;
    assert_eq!(rt;
        got.sent.as_slice(),
        b"GET /v/a?b=c HTTP/1.1\r\nHost: 127.0.0.1:8080\r\nReferer: http://127.0.0.1/\r\nAccept-Encoding: identity\r\nRange: bytes=3-\r\nConnection: close\r\n\r\n".as_slice()
    );
    assert_eq!(rt; got.known, Some(6));
    Ok(())
}

/// A reply, the place that was asked for, what was known, the answer, and the bytes that are taken.
type Row = (
    &'static [u8],
    u64,
    Option<u64>,
    Result<Fetched, PieceFault>,
    &'static [u8],
);

const SIX: Result<Fetched, PieceFault> = Ok(Fetched { total: 6 });

const WHOLE: &[u8] = b"HTTP/1.1 200 OK\r\nContent-Length: 6\r\n\r\nabcdef";

/// Whole and cut replies, replies from a place on, all that is there already, chunks, and replies that are refused.
const REPLIES: [Row; 14] = [
    (WHOLE, 0, None, SIX, b"abcdef"),
    (
        WHOLE,
        0,
        Some(7),
        Err(PieceFault::SizeChanged { before: 7, now: 6 }),
        b"",
    ),
    (
        b"HTTP/1.1 200 OK\r\nContent-Length: 6\r\n\r\nabc",
        0,
        None,
        Err(PieceFault::CutShort {
            got: 3,
            told: Some(6),
        }),
        b"abc",
    ),
    (
        b"HTTP/1.1 206 Partial Content\r\nContent-Range: bytes 3-5/6\r\n\r\ndef",
        3,
        None,
        SIX,
        b"def",
    ),
    (WHOLE, 3, None, SIX, b"def"),
    (
        b"HTTP/1.1 206 Partial Content\r\nContent-Range: bytes 2-5/6\r\n\r\ncdef",
        3,
        None,
        Err(PieceFault::BadRange {
            asked: 3,
            told: Some(2),
        }),
        b"",
    ),
    (
        b"HTTP/1.1 416 Range Not Satisfiable\r\nContent-Range: bytes */1048576\r\n\r\n",
        1_048_576,
        None,
        Ok(Fetched { total: 1_048_576 }),
        b"",
    ),
    (
        b"HTTP/1.1 416 Range Not Satisfiable\r\nContent-Range: bytes */1048577\r\n\r\n",
        1_048_576,
        None,
        Err(PieceFault::BadRange {
            asked: 1_048_576,
            told: Some(1_048_577),
        }),
        b"",
    ),
    (
        b"HTTP/1.1 200 OK\r\nTransfer-Encoding: chunked\r\n\r\n3\r\nabc\r\n3\r\ndef\r\n0\r\n\r\n",
        0,
        None,
        SIX,
        b"abcdef",
    ),
    (
        b"HTTP/1.1 200 OK\r\nContent-Length: 0\r\n\r\n",
        0,
        None,
        Ok(Fetched { total: 0 }),
        b"",
    ),
    (
        b"HTTP/1.1 503 Service Unavailable\r\nContent-Length: 0\r\n\r\n",
        0,
        None,
        Err(PieceFault::Status { code: 503 }),
        b"",
    ),
    (b"hello", 0, None, Err(PieceFault::BadHead { at: 0 }), b""),
    (
        b"HTTP/1.1 200 OK\r\nContent-Encoding: gzip\r\nContent-Length: 3\r\n\r\nabc",
        0,
        None,
        Err(PieceFault::Encoded),
        b"",
    ),
    (
        b"HTTP/1.1 200 OK\r\n\r\nabc",
        0,
        None,
        Err(PieceFault::NoLength),
        b"",
    ),
];

const THREE: Result<Fetched, PieceFault> = Ok(Fetched { total: 3 });

const SHORT: Result<Fetched, PieceFault> = Err(PieceFault::CutShort { got: 0, told: None });

/// Odd heads, lengths and chunks.
const ODD: [Row; 10] = [
    (
        b"HTTP/1.1 200 OK\r\nContent-Length: 3\r\nX: a\r\n b\r\n\r\nabc",
        0,
        None,
        SHORT,
        b"",
    ),
    (
        b"HTTP/1.1 200 OK\r\nContent-Length: 3\rX: a\r\n\r\nabc",
        0,
        None,
        SHORT,
        b"",
    ),
    (
        b"HTTP/1.1 200\r\nContent-Length: 3\r\n\r\nabc",
        0,
        None,
        THREE,
        b"abc",
    ),
    (
        b"HTTP/1.1 200 OK\ncontent-length:3\n\nabc",
        0,
        None,
        THREE,
        b"abc",
    ),
    (
        b"\r\n\n\r\nHTTP/1.1 200 OK\r\nContent-Length: 3\r\n\r\nabc",
        0,
        None,
        THREE,
        b"abc",
    ),
    (
        b"HTTP/1.1 100 Continue\r\n\r\nHTTP/1.1 103 Early Hints\r\nLink: x\r\n\r\nHTTP/1.1 200 OK\r\nContent-Length: 3\r\n\r\nabc",
        0,
        None,
        THREE,
        b"abc",
    ),
    (
        b"HTTP/1.1 200 OK\r\nContent-Length: 3\r\nContent-Length: 03\r\n\r\nabc",
        0,
        None,
        THREE,
        b"abc",
    ),
    (
        b"HTTP/1.1 200 OK\r\nContent-Length: 3\r\nContent-Length: 4\r\n\r\nabc",
        0,
        None,
        Err(PieceFault::NoLength),
        b"",
    ),
    (
        b"HTTP/1.1 200 OK\r\nTransfer-Encoding: CHUNKED\r\n\r\n3;x=y\r\nabc\r\n0;z\r\n",
        0,
        None,
        THREE,
        b"abc",
    ),
    (
        b"HTTP/1.1 200 OK\r\nTransfer-Encoding: chunked\r\n\r\nzz\r\n",
        0,
        None,
        Err(PieceFault::BadHead { at: 47 }),
        b"",
    ),
];

/// Each reply gives the same answer and the same bytes in pieces of this size.
fn answer(rt: &(impl Abort + AllocGlobal), rows: &[Row], piece: usize) -> Result<(), Fail> {
    for (reply, from, known, answer, bytes) in rows {
        let got = tried(rt.alloc(), reply, piece, *from, *known)?;
        assert_eq!(rt; got.answer, *answer);
        assert_eq!(rt; got.bytes.as_slice(), *bytes);
        assert!(rt; !got.open);
    }
    Ok(())
}

#[test]
fn replies_come_in_pieces_of_any_size(rt: HostRuntime) -> Result<(), Fail> {
    for piece in [1, 7, 4096] {
        answer(&rt, &REPLIES, piece)?;
        answer(&rt, &ODD, piece)?;
    }
    Ok(())
}

/// A reply with so many fields and a body of three bytes.
fn reply_of_fields(alloc: Global, fields: usize) -> Result<Vec<u8>, Fail> {
    let mut reply = b"HTTP/1.1 200 OK\r\nContent-Length: 3\r\n".to_vec(alloc)?;
    for _ in 1..fields {
        reply.extend_from_slice(b"X: y\r\n")?;
    }
    reply.extend_from_slice(b"\r\nabc")?;
    Ok(reply)
}

#[test]
fn heads_have_128_fields_at_most(rt: HostRuntime) -> Result<(), Fail> {
    for (fields, answer) in [
        (128, Ok(Fetched { total: 3 })),
        (129, Err(PieceFault::HeadLong)),
        (300, Err(PieceFault::HeadLong)),
        (11_000, Err(PieceFault::HeadLong)),
    ] {
        let reply = reply_of_fields(rt.alloc(), fields)?;
        let got = tried(rt.alloc(), &reply, 4096, 0, None)?;
        assert_eq!(rt; got.answer, answer, "{fields}");
    }
    Ok(())
}
