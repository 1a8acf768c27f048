//! The first byte that ends a run, 32 bytes at a time.

ghost use Rattle.std.specs.Prelude.{◌≡◌, ◌≤◌, length};
ghost use Rattle.text_base.specs.Scan.{is_json_special, is_name_special, first_set, IsFirst};

use std::simd::prelude::*;

/// The bytes of a block.
const BLOCK: usize = 32;

/// The place of the lowest bit that is set, or that of the end of a block.
#[inline(always)]
fn first_set(mask: u64) -> usize
    ensures { result ≡ first_set mask 32 }
{
    match mask {
        0 => BLOCK,
        _ => mask.trailing_zeros() as usize,
    }
}

/// The least place in a block of a quote, a backslash or a control byte, else 32.
#[inline(always)]
pub fn json_special_32(block: &[u8; 32]) -> usize
    ensures { IsFirst is_json_special block.now 0 result }
{
    let lanes = u8x32::from_array(*block);
    let special = lanes.simd_lt(u8x32::splat(32))
        | lanes.simd_eq(u8x32::splat(b'"'))
        | lanes.simd_eq(u8x32::splat(b'\\'));
    first_set(special.to_bitmask())
}

/// The least place in a block of a byte that a file name can't keep, else 32.
#[inline(always)]
pub fn name_special_32(block: &[u8; 32]) -> usize
    ensures { IsFirst is_name_special block.now 0 result }
{
    let lanes = u8x32::from_array(*block);
    let special = lanes.simd_lt(u8x32::splat(32))
        | lanes.simd_eq(u8x32::splat(127))
        | lanes.simd_eq(u8x32::splat(b'%'))
        | lanes.simd_eq(u8x32::splat(b'"'))
        | lanes.simd_eq(u8x32::splat(b'*'))
        | lanes.simd_eq(u8x32::splat(b':'))
        | lanes.simd_eq(u8x32::splat(b'<'))
        | lanes.simd_eq(u8x32::splat(b'>'))
        | lanes.simd_eq(u8x32::splat(b'?'))
        | lanes.simd_eq(u8x32::splat(b'|'))
        | lanes.simd_eq(u8x32::splat(b'/'))
        | lanes.simd_eq(u8x32::splat(b'\\'));
    first_set(special.to_bitmask())
}

fn ends_json_run(byte: u8) -> bool
    ensures { result ≡ is_json_special byte }
{
    byte < 32 || byte == b'"' || byte == b'\\'
}

fn ends_name_run(byte: u8) -> bool
    ensures { result ≡ is_name_special byte }
{
    byte < 32
        || byte == 127
        || matches!(
            byte,
            b'%' | b'"' | b'*' | b':' | b'<' | b'>' | b'?' | b'|' | b'/' | b'\\'
        )
}

/// The answer of `first_json_special`, byte by byte: for less than a block.
fn json_special_in_rest(bytes: &[u8], from: usize) -> usize
    requires { from ≤ length bytes.now }
    ensures { IsFirst is_json_special bytes.now from result }
{
    for at in from..bytes.len() {
        if ends_json_run(bytes[at]) {
            return at;
        }
    }
    bytes.len()
}

/// The answer of `first_name_special`, byte by byte: for less than a block.
fn name_special_in_rest(bytes: &[u8], from: usize) -> usize
    requires { from ≤ length bytes.now }
    ensures { IsFirst is_name_special bytes.now from result }
{
    for at in from..bytes.len() {
        if ends_name_run(bytes[at]) {
            return at;
        }
    }
    bytes.len()
}

/// The first place from `from` on of a quote, a backslash or a control byte, else the length.
pub fn first_json_special(bytes: &[u8], from: usize) -> usize
    requires { from ≤ length bytes.now }
    ensures { IsFirst is_json_special bytes.now from result }
{
    let mut at = from;
    while let Some(block) = bytes[at..].first_chunk::<32>() {
        let place = json_special_32(block);
        if place < BLOCK {
            return at + place;
        }
        at += BLOCK;
    }
    json_special_in_rest(bytes, at)
}

/// The first place from `from` on of a byte that a file name can't keep, else the length.
pub fn first_name_special(bytes: &[u8], from: usize) -> usize
    requires { from ≤ length bytes.now }
    ensures { IsFirst is_name_special bytes.now from result }
{
    let mut at = from;
    while let Some(block) = bytes[at..].first_chunk::<32>() {
        let place = name_special_32(block);
        if place < BLOCK {
            return at + place;
        }
        at += BLOCK;
    }
    name_special_in_rest(bytes, at)
}
