//! The values of fields: numbers and ranges.
ghost use Rattle.std.specs.Prelude.{◌≡◌};
ghost use Rattle.http_reply.specs.Fields.{number, range_value, range_in, range_of, past_of, before, behind_first, is_star};

use crate::range::Range;

#[tactic(auto, unfolding(crate::specs::Fields::number))]
/// A decimal number; one that is too great is the greatest that fits.
pub fn number(text: &[u8]) -> Option<u64>
    ensures { result ≡ number text.now }
{
    if text.is_empty() {
        return None;
    }
    let mut value: u64 = 0;
    for byte in text {
        if !byte.is_ascii_digit() {
            return None;
        }
        value = value
            .saturating_mul(10)
            .saturating_add((*byte - b'0') as u64);
    }
    Some(value)
}

#[tactic(auto, unfolding(crate::specs::Fields::range_value))]
/// The value of a Content-Range.
pub fn range_value(value: &[u8]) -> Range
    ensures { result ≡ range_value value.now }
{
    if value.len() < 6 {
        return Range::Unreadable;
    }
    let (unit, text) = value.split_at(6);
    if !unit.eq_ignore_ascii_case(b"bytes ") {
        return Range::Unreadable;
    }
    range_in(text)
}

#[tactic(auto, unfolding(crate::specs::Fields::range_in))]
/// What stands behind the unit.
fn range_in(text: &[u8]) -> Range
    ensures { result ≡ range_in text.now }
{
    let (front, size) = split_at_byte(text, b'/');
    if front == b"*".as_slice() {
        return past_of(number(size));
    }
    let (first, last) = split_at_byte(front, b'-');
    range_of(
        number(first),
        number(last),
        number(size),
        size == b"*".as_slice(),
    )
}

fn past_of(total: Option<u64>) -> Range
    ensures { result ≡ past_of total }
{
    match total {
        Some(total) => Range::Past { total },
        None => Range::Unreadable,
    }
}

fn range_of(first: Option<u64>, last: Option<u64>, total: Option<u64>, is_open: bool) -> Range
    ensures { result ≡ range_of first last total is_open }
{
    match (first, last, total) {
        (Some(first), Some(last), Some(total)) => Range::Part { first, last, total },
        (Some(_), Some(_), None) => if is_open {
            Range::Open
        } else {
            Range::Unreadable
        },
        _ => Range::Unreadable,
    }
}

/// What stands before the first of this byte, and what stands behind it.
fn split_at_byte(text: &[u8], byte: u8) -> (&[u8], &[u8])
    ensures front { result.0.now ≡ before byte text.now }
    ensures rest { result.1.now ≡ behind_first byte text.now }
{
    for (i, b) in text.iter().enumerate() {
        if *b == byte {
            return (&text[..i], &text[i + 1..]);
        }
    }
    (text, &[])
}
