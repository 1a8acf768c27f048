ghost use Rattle.std.specs.Prelude.{◌≡◌, ◌≤◌, ℕ, List, All, Some, IsSomeAnd, IfSome, codes, length, map, option_map};
ghost use Rattle.std.specs.Str.{str_eq_ignore_ascii_case};
ghost use Rattle.httparse.specs.Grammar.{RequestHead, ReadsRequest};
ghost use Rattle.httparse.specs.Spans.{IsHeaderWithin, header_bytes};
ghost use Rattle.file_server.specs.Request.{Asks, first_range, range_value, range_in, range_of};

use crate::asked::Asked;
use crate::byte_range::ByteRange;
use crate::cut::cut_at;
use crate::numeral::number;
use httparse::Status;
use httparse::spans::{EMPTY_HEADER_SPAN, HeaderSpan, parse_request};

/// The most fields that a head may have.
const FIELDS: usize = 64;

/// What the head of a request asks for. None where it is no whole head, is none of a GET, or has more
/// than 64 fields.
pub fn read_request(bytes: &[u8]) -> Option<Asked<'_>>
    ensures some { IfSome result (λ asked. (head : RequestHead) × (rest : List ℕ)
        × ReadsRequest bytes.now head rest × Asks head asked.target.now asked.range) }
    ensures found { (head : RequestHead) (rest : List ℕ) → ReadsRequest bytes.now head rest
        → head.method ≡ codes "GET" → length head.fields ≤ 64
        → IsSomeAnd result (λ asked. Asks head asked.target.now asked.range) }
{
    let mut headers = [EMPTY_HEADER_SPAN; FIELDS];
    match parse_request(bytes, &mut headers) {
        Ok(Status::Complete(head)) => {
            if head.method.of(bytes) != b"GET".as_slice() {
                return None;
            }
            Some(Asked {
                target: head.path.of(bytes),
                range: first_range(bytes, &headers[..head.headers]),
            })
        }
        Ok(Status::Partial) | Err(_) => None,
    }
}

/// The range of the first field that names one.
fn first_range(bytes: &[u8], headers: &[HeaderSpan]) -> Option<ByteRange>
    requires { All (IsHeaderWithin (length bytes.now)) headers.now }
    ensures { result ≡ first_range (map (header_bytes bytes.now) headers.now) }
{
    for header in headers {
        if is_range(bytes, header) {
            return range_value(header.value.of(bytes));
        }
    }
    None
}

/// Whether a field names a range.
fn is_range(bytes: &[u8], header: &HeaderSpan) -> bool
    requires { IsHeaderWithin (length bytes.now) header.now }
    ensures { result ≡ str_eq_ignore_ascii_case (header_bytes bytes.now header.now).0 (codes "range") }
{
    header.name.of(bytes).eq_ignore_ascii_case(b"range")
}

/// The value of a field that names a range.
fn range_value(value: &[u8]) -> Option<ByteRange>
    ensures { result ≡ range_value value.now }
{
    let (unit, text) = value.split_at_checked(6)?;
    if !unit.eq_ignore_ascii_case(b"bytes=") {
        return None;
    }
    range_in(text)
}

/// What stands behind the unit.
fn range_in(text: &[u8]) -> Option<ByteRange>
    ensures { result ≡ range_in text.now }
{
    let (first, tail) = cut_at(text, b'-');
    range_of(number(first), tail)
}

/// A first byte, and what stands from the dash on.
fn range_of(first: Option<u64>, tail: &[u8]) -> Option<ByteRange>
    ensures { result ≡ range_of first tail.now }
{
    match (first, tail) {
        (Some(first), [_dash]) => Some(ByteRange { first, last: None }),
        (Some(first), [_dash, last @ ..]) => bounded(first, number(last)),
        _ => None,
    }
}

/// A range up to a last byte.
fn bounded(first: u64, last: Option<u64>) -> Option<ByteRange>
    ensures { result ≡ option_map (λ last. record { first = first; last = Some last }) last }
{
    let last = Some(last?);
    Some(ByteRange { first, last })
}
