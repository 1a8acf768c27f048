//! What a request to a dialer in memory asks for.
ghost use Rattle.std.specs.Prelude.{◌≡◌, option_copied};
ghost use Rattle.link_http.specs.Asked.{asked_from, number_before};
ghost use Rattle.link_http.specs.Memory.{asked_bytes, place_of};

use crate::mem_dial::MemDial;
use crate::resource::Resource;

/// The bytes of the first resource that a request asks for.
pub fn asked_bytes<'a>(
    resources: &'a [Resource],
    dial: &MemDial,
    request: &[u8],
) -> Option<&'a [u8]>
    ensures { option_copied result ≡ asked_bytes resources.now (place_of dial.now) request.now }
{
    for resource in resources {
        if resource.is_asked(dial, request) {
            return Some(&resource.bytes);
        }
    }
    None
}

/// The place that a request asks from.
pub fn asked_from(request: &[u8]) -> u64
    ensures { result ≡ asked_from request.now }
{
    let mark = b"Range: bytes=".as_slice();
    for (i, byte) in request.iter().enumerate() {
        let (_, rest) = request.split_at(i + 1);
        if *byte == b'\n' && rest.starts_with(mark) {
            let (_, range) = rest.split_at(mark.len());
            return number_before(range);
        }
    }
    0
}

/// The decimal number at the front.
fn number_before(text: &[u8]) -> u64
    ensures { result ≡ number_before text.now }
{
    let mut value: u64 = 0;
    for byte in text {
        if !byte.is_ascii_digit() {
            return value;
        }
        value = value
            .saturating_mul(10)
            .saturating_add((*byte - b'0') as u64);
    }
    value
}
