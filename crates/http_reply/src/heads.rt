//! The heads of a reply.
ghost use Rattle.std.specs.Prelude.{◌≡◌, ◌≤◌, ◌<◌, ◌+◌, ℕ, List, ◌++◌, length, drop, take, IsTrue, IsFalse, true, not, nat_le, nat_lt, ◌&&◌, ◌^◌};
ghost use Rattle.http_reply.specs.Heads.{heads_room, Steps, again, ends, final, bad, long, short, may_start, HeadStep, HeadShows, head_next, none_next};
ghost use Rattle.std.specs.List.{prefix_len};
ghost use Rattle.httparse.specs.Pieces.{is_newline};

use httparse::spans::{HeaderSpan, ResponseSpans, parse_response};
use httparse::{Error, Status};

/// What comes next in the heads.
#[derive(Clone, Copy)]
pub enum HeadNext {
    /// No whole head is at hand, and more bytes may come; `never` tells that none of them can make one.
    More { never: bool },
    /// A head has more fields than there is room for, which is not the whole room of 32,768.
    Crowded,
    /// An informational head (1xx) is passed over; the next one begins there.
    Again { at: usize },
    /// The final head, and where the body begins.
    Final { spans: ResponseSpans, at: usize },
    /// What stands there begins no head.
    Bad { at: usize },
    /// The heads are too long, or one has over 128 fields.
    Long,
    /// The reply ends before its final head.
    Short,
}

/// The next step through the heads of a reply, of which these bytes came, and no more will where it has ended.
/// Room for 129 fields is enough for each head that is not too long; only a head of more fields is crowded.
pub fn next_head(came: &[u8], at: usize, ended: bool, headers: &mut [HeaderSpan]) -> HeadNext
    requires within { at ≤ length came.now }
    requires fits { length came.now ≤ heads_room }
    ensures shows { HeadShows came.now at ended headers.new result }
{
    let (_, window) = came.split_at(at);
    match parse_response(window, headers) {
        Ok(Status::Complete(spans)) => whole_head(at, spans),
        Ok(Status::Partial) => no_head(came, at, ended, HeadNext::More { never: false }),
        Err(Error::TooManyHeaders) => HeadNext::Crowded,
        Err(_) => no_head(came, at, ended, HeadNext::More { never: true }),
    }
}

/// What is said where a whole head stands.
fn whole_head(at: usize, spans: ResponseSpans) -> HeadNext
    requires { at + spans.len < 2 ^ 63 }
    ensures { result ≡ head_next at spans }
{
    if spans.headers > 128 {
        return HeadNext::Long;
    }
    if is_informal(spans.code) {
        return HeadNext::Again { at: at + spans.len };
    }
    HeadNext::Final {
        spans,
        at: at + spans.len,
    }
}

fn is_informal(code: u16) -> bool
    ensures { result ≡ (nat_le 100 code && nat_lt code 200) }
{
    code >= 100 && code < 200
}

/// What is said where no whole head stands: `waits`, where more bytes may come.
fn no_head(came: &[u8], at: usize, ended: bool, waits: HeadNext) -> HeadNext
    requires within { at ≤ length came.now }
    requires fits { length came.now ≤ heads_room }
    ensures { result ≡ none_next came.now at ended waits }
{
    if !ended && came.len() < 65_536 {
        return waits;
    }
    if !begins_head(&came[at..]) {
        return HeadNext::Bad { at };
    }
    if came.len() < 65_536 {
        HeadNext::Short
    } else {
        HeadNext::Long
    }
}

/// Whether bytes may be the start of a head.
#[tactic(auto, unfolding(crate::specs::Heads::may_start))]
fn begins_head(bytes: &[u8]) -> bool
    ensures { result ≡ may_start bytes.now }
{
    let start = newlines(bytes);
    let rest = &bytes[start..];
    rest.starts_with(b"HTTP/1.") || b"HTTP/1.".starts_with(rest)
}

/// How many CR and LF stand at the front.
fn newlines(bytes: &[u8]) -> usize
    ensures value { result ≡ prefix_len is_newline bytes.now }
    ensures within { result ≤ length bytes.now }
{
    for (i, byte) in bytes.iter().enumerate() {
        if *byte != b'\r' && *byte != b'\n' {
            return i;
        }
    }
    bytes.len()
}
