//! How much of a text is built at most, where a conversion keeps no more.
ghost use Rattle.std.specs.Prelude.{◌≡◌, ◌++◌, IfOk, OnOk};
ghost use Rattle.std.specs.Str.{IsUtf8};
ghost use Rattle.std.specs.String.{string_bytes};
ghost use Rattle.field_text.specs.Frame.{first_chars as front_of};
ghost use Rattle.tpl_eval.specs.Field.{spaces};
ghost use Rattle.tpl_eval.specs.Limit as spec;

use crate::letters::count_letters_to;
use field_text::{Frame, framed, push_times};
use name_text::byte_cut;
use std::alloc::Global;
use text_base::{OutOfMemory, Text};
use tpl_lang::{Conv, Kind};

/// How much of a text is built at most.
#[derive(Clone, Copy, Debug)]
pub(crate) enum Limit {
    /// All of it.
    Whole,
    /// So many characters.
    Chars(usize),
    /// As many characters as have so many bytes together.
    Bytes(usize),
}

/// How much of a text a conversion keeps at most. What does more than cut it is given the whole.
pub(crate) fn limit_of(conv: Conv) -> Limit
    ensures { result ≡ spec.limit_of conv }
{
    match conv.precision {
        Some(most) => limit_by(conv.kind, most as usize),
        None => Limit::Whole,
    }
}

fn limit_by(kind: Kind, most: usize) -> Limit
    ensures { result ≡ spec.limit_by kind most }
{
    match kind {
        Kind::Text => Limit::Chars(most),
        Kind::Bytes => Limit::Bytes(most),
        _ => Limit::Whole,
    }
}

/// The first so many characters of a text.
fn first_chars(alloc: Global, text: &str, count: usize) -> Result<Text, OutOfMemory>
    ensures { IfOk result (λ t. t ≡ front_of count text.now) }
{
    let frame = Frame {
        left: true,
        width: 0,
        precision: Some(count),
    };
    framed(alloc, text, frame)
}

/// Appends of a text what a limit lets stand.
fn push_front(alloc: Global, out: &mut String, limit: Limit, text: &str) -> Result<(), OutOfMemory>
    ensures { OnOk result (string_bytes out.new ≡ string_bytes out.old ++ spec.limited limit text.now) }
{
    match limit {
        Limit::Whole => push_text(out, text),
        Limit::Chars(count) => push_text(out, first_chars(alloc, text, count)?.as_str()),
        Limit::Bytes(count) => push_text(out, byte_cut(alloc, text, count)?.as_str()),
    }
}

fn push_text(out: &mut String, text: &str) -> Result<(), OutOfMemory>
    ensures { OnOk result (string_bytes out.new ≡ string_bytes out.old ++ text.now) }
{
    out.push_str(text)?;
    Ok(())
}

/// The limit for what stands behind a text.
fn behind(limit: Limit, text: &str) -> Limit
    ensures { result ≡ spec.behind limit text.now }
{
    match limit {
        Limit::Whole => Limit::Whole,
        Limit::Chars(count) => Limit::Chars(count - count_letters_to(text, count)),
        Limit::Bytes(count) => Limit::Bytes(count.saturating_sub(text.len())),
    }
}

/// Appends of a text what a limit lets stand, and answers the limit for what follows.
pub(crate) fn push_limited(
    alloc: Global,
    out: &mut String,
    limit: Limit,
    text: &str,
) -> Result<Limit, OutOfMemory>
    ensures text { OnOk result (string_bytes out.new ≡ string_bytes out.old ++ spec.limited limit text.now) }
    ensures left { IfOk result (λ l. l ≡ spec.behind limit text.now) }
    ensures utf8 { IsUtf8 text.now }
{
    push_front(alloc, out, limit, text)?;
    Ok(behind(limit, text))
}

/// How many of so many spaces a limit lets stand.
fn spaces_of(limit: Limit, count: usize) -> usize
    ensures { result ≡ spec.spaces_of limit count }
{
    match limit {
        Limit::Whole => count,
        Limit::Chars(most) => count.min(most),
        Limit::Bytes(most) => count.min(most),
    }
}

/// A limit less so many characters of one byte.
fn less(limit: Limit, count: usize) -> Limit
    ensures { result ≡ spec.less limit count count }
{
    match limit {
        Limit::Whole => Limit::Whole,
        Limit::Chars(most) => Limit::Chars(most.saturating_sub(count)),
        Limit::Bytes(most) => Limit::Bytes(most.saturating_sub(count)),
    }
}

/// Appends of so many spaces what a limit lets stand, and answers the limit for what follows.
pub(crate) fn push_spaces(
    out: &mut String,
    limit: Limit,
    count: usize,
) -> Result<Limit, OutOfMemory>
    ensures text { OnOk result (string_bytes out.new ≡ string_bytes out.old ++ spec.limited limit (spaces count)) }
    ensures left { IfOk result (λ l. l ≡ spec.behind limit (spaces count)) }
{
    push_times(out, ' ', spaces_of(limit, count))?;
    Ok(less(limit, count))
}
