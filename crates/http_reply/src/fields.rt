//! What the fields of a head tell, read where they stand.
ghost use Rattle.std.specs.Prelude.{◌≡◌, ◌<◌, ◌≤◌, ◌+◌, All, codes, length, nat_eq, Some, not, drop, take, ℕ, List, ◌==◌};
ghost use Rattle.std.specs.List.{list_all};
ghost use Rattle.std.specs.Option.{option_eq};
ghost use Rattle.std.specs.Str.{str_eq_ignore_ascii_case};
ghost use Rattle.httparse.specs.Spans.{IsHeaderWithin, header_bytes};
ghost use Rattle.http_reply.specs.Fields.{agreed, fields_at, has_other, values, number, length_told, has_no_length_but, is_encoded, is_chunked, content_range, range_value, range_in, range_of, past_of, before, behind_first};

use crate::field_value::{number, range_value};
use crate::range::Range;
use httparse::spans::HeaderSpan;

/// Whether two texts are the same but for the case of ASCII letters.
fn is_same(text: &[u8], other: &[u8]) -> bool
    ensures { result ≡ str_eq_ignore_ascii_case text.now other.now }
{
    text.eq_ignore_ascii_case(other)
}

/// Whether a field is of this name.
fn is_named(bytes: &[u8], header: &HeaderSpan, name: &[u8]) -> bool
    requires { IsHeaderWithin (length bytes.now) header.now }
    ensures { result ≡ str_eq_ignore_ascii_case (header_bytes bytes.now header.now).0 name.now }
{
    is_same(header.name.of(bytes), name)
}

/// Whether a field of this name has another value.
fn has_other(bytes: &[u8], headers: &[HeaderSpan], name: &[u8], value: &[u8]) -> bool
    requires { All (IsHeaderWithin (length bytes.now)) headers.now }
    ensures { result ≡ has_other name.now value.now (fields_at bytes.now headers.now) }
{
    for header in headers {
        if is_named(bytes, header, name) && !is_same(header.value.of(bytes), value) {
            return true;
        }
    }
    false
}

/// Whether the body has a coding that is not read.
pub fn is_encoded(bytes: &[u8], headers: &[HeaderSpan]) -> bool
    requires { All (IsHeaderWithin (length bytes.now)) headers.now }
    ensures { result ≡ is_encoded (fields_at bytes.now headers.now) }
{
    has_other(bytes, headers, b"content-encoding", b"identity")
        || has_other(bytes, headers, b"transfer-encoding", b"chunked")
}

/// Whether the body comes in chunks.
pub fn is_chunked(bytes: &[u8], headers: &[HeaderSpan]) -> bool
    requires { All (IsHeaderWithin (length bytes.now)) headers.now }
    ensures { result ≡ is_chunked (fields_at bytes.now headers.now) }
{
    for header in headers {
        if is_named(bytes, header, b"transfer-encoding") {
            return true;
        }
    }
    false
}

/// The Content-Length, if there is just one.
pub fn length_told(bytes: &[u8], headers: &[HeaderSpan]) -> Option<u64>
    requires { All (IsHeaderWithin (length bytes.now)) headers.now }
    ensures { result ≡ length_told (fields_at bytes.now headers.now) }
{
    let mut told = None;
    for header in headers {
        if is_named(bytes, header, b"content-length") {
            match agreed(told, number(header.value.of(bytes))) {
                None => return None,
                Some(size) => told = Some(size),
            }
        }
    }
    told
}

/// One number more, where this one or none was told.
fn agreed(told: Option<u64>, size: Option<u64>) -> Option<u64>
    ensures { result ≡ agreed told size }
{
    match (told, size) {
        (None, _) => size,
        (Some(_), None) => None,
        (Some(other), Some(size)) => if other == size { told } else { None },
    }
}

/// Whether no Content-Length is another number.
pub fn has_no_length_but(size: u64, bytes: &[u8], headers: &[HeaderSpan]) -> bool
    requires { All (IsHeaderWithin (length bytes.now)) headers.now }
    ensures { result ≡ has_no_length_but size (fields_at bytes.now headers.now) }
{
    for header in headers {
        if is_named(bytes, header, b"content-length") && !tells(header.value.of(bytes), size) {
            return false;
        }
    }
    true
}

/// Whether a value is this number.
fn tells(value: &[u8], size: u64) -> bool
    ensures { result ≡ option_eq nat_eq (number value.now) (Some size) }
{
    match number(value) {
        Some(told) => told == size,
        None => false,
    }
}

/// What the Content-Range tells.
pub fn content_range(bytes: &[u8], headers: &[HeaderSpan]) -> Range
    requires { All (IsHeaderWithin (length bytes.now)) headers.now }
    ensures { result ≡ content_range (fields_at bytes.now headers.now) }
{
    let mut range = None;
    for header in headers {
        if is_named(bytes, header, b"content-range") {
            if range.is_some() {
                return Range::Unreadable;
            }
            range = Some(range_value(header.value.of(bytes)));
        }
    }
    range.unwrap_or(Range::Unreadable)
}
