//! Names: which formats they stand for.

ghost use Rattle.std.specs.Prelude.{◌≡◌, ◌<◌, IfOk, true};
ghost use Rattle.std.specs.List.{list_all};
ghost use Rattle.std.specs.Option.{option_map};
ghost use Rattle.text_base.specs.Spelled.{AreDigits};
ghost use Rattle.sel_lang.specs.Names as spec;

use crate::pick::{Media, Pick};
use std::alloc::Global;
use text_base::{OutOfMemory, Text};

/// What a special name begins with: whether it is from the worst on, and what stands behind it.
fn rank_at(word: &[u8]) -> Option<(bool, &[u8])>
    ensures { option_map (λ x. (x.0, x.1.now)) result ≡ spec.rank_at word.now }
{
    if let Some(rest) = word.strip_prefix(b"best".as_slice()) {
        Some((false, rest))
    } else if let Some(rest) = word.strip_prefix(b"worst".as_slice()) {
        Some((true, rest))
    } else if let Some(rest) = word.strip_prefix(b"b".as_slice()) {
        Some((false, rest))
    } else if let Some(rest) = word.strip_prefix(b"w".as_slice()) {
        Some((true, rest))
    } else {
        None
    }
}

/// The streams that a special name asks for, and what stands behind them.
fn media_at(word: &[u8]) -> (Media, &[u8])
    ensures { (result.0, result.1.now) ≡ spec.media_at word.now }
{
    if let Some(rest) = word.strip_prefix(b"video".as_slice()) {
        (Media::Video, rest)
    } else if let Some(rest) = word.strip_prefix(b"audio".as_slice()) {
        (Media::Audio, rest)
    } else if let Some(rest) = word.strip_prefix(b"v".as_slice()) {
        (Media::Video, rest)
    } else if let Some(rest) = word.strip_prefix(b"a".as_slice()) {
        (Media::Audio, rest)
    } else {
        (Media::Any, word)
    }
}

fn are_digits(bytes: &[u8]) -> bool
    ensures value { result ≡ list_all spec.is_digit bytes.now }
    ensures each { result ≡ true → AreDigits bytes.now }
{
    bytes.iter().all(|byte| *byte >= b'0' && *byte <= b'9')
}

/// The most that 64 bits hold.
const MOST: u128 = 18_446_744_073_709_551_615;

/// What digits count, or the most that 64 bits hold.
fn value_of(digits: &[u8]) -> u64
    requires { AreDigits digits.now }
    ensures { result ≡ spec.capped_value digits.now }
{
    let mut value: u128 = 0;
    for digit in digits {
        value = (10 * value + u128::from(*digit - b'0')).min(MOST);
    }
    value as u64
}

/// A number from 1 on without a leading zero.
fn count_of(digits: &[u8]) -> Option<u64>
    ensures { result ≡ spec.count_of digits.now }
{
    match digits {
        [] | [b'0', ..] => None,
        _ if are_digits(digits) => Some(value_of(digits)),
        _ => None,
    }
}

/// Which of the candidates a special name ends with; the first where it says none.
fn nth_of(word: &[u8]) -> Option<u64>
    ensures { result ≡ spec.nth_of word.now }
{
    match word {
        [] => Some(1),
        [b'.', digits @ ..] => count_of(digits),
        _ => None,
    }
}

/// What a special name stands for.
fn ranked_of(word: &[u8]) -> Option<Pick>
    ensures { result ≡ spec.ranked_of word.now }
{
    let (worst, rest) = rank_at(word)?;
    let (media, rest) = media_at(rest);
    let (star, rest) = match rest {
        [b'*', rest @ ..] => (true, rest),
        _ => (false, rest),
    };
    let n = nth_of(rest)?;
    Some(Pick::Ranked {
        worst,
        media,
        star,
        n,
    })
}

/// Whether a name is an extension.
fn is_ext(word: &str) -> bool
    ensures { result ≡ spec.is_ext word.now }
{
    word == "3gp"
        || word == "flv"
        || word == "mp4"
        || word == "webm"
        || word == "aac"
        || word == "m4a"
        || word == "mp3"
        || word == "ogg"
        || word == "wav"
}

/// What a name stands for.
#[tactic(auto, unfolding(crate::specs::Names::pick_of))]
pub(crate) fn pick_of(alloc: Global, word: &str) -> Result<Pick, OutOfMemory>
    ensures { IfOk result (λ p. p ≡ spec.pick_of word.now) }
{
    if word == "all" {
        return Ok(Pick::All);
    }
    if word == "mergeall" {
        return Ok(Pick::MergeAll);
    }
    if let Some(pick) = ranked_of(word.as_bytes()) {
        return Ok(pick);
    }
    let text = Text::new(alloc, word)?;
    if is_ext(word) {
        Ok(Pick::Ext(text))
    } else {
        Ok(Pick::Id(text))
    }
}
