//! A replacement, in which a value's plain text stands.
ghost use Rattle.std.specs.Prelude.{◌≡◌, ◌≤◌, ◌++◌, ◌-◌, length, IfOk, OnOk};
ghost use Rattle.std.specs.Str.{IsUtf8, chars};
ghost use Rattle.std.specs.String.{string_bytes};
ghost use Rattle.info_tree.specs.Plain.{plain};
ghost use Rattle.info_tree.specs.Tree.{text as a_text};
ghost use Rattle.field_text.specs.Plain.{plain_text as plain_of};
ghost use Rattle.tpl_eval.specs.Field as spec;
ghost use Rattle.tpl_eval.specs.Limit.{limited, behind};

use crate::letters::count_letters_to;
use crate::limit::{Limit, push_limited, push_spaces};
use field_text::plain_text;
use info_tree::Tree;
use std::alloc::Global;
use text_base::{OutOfMemory, Text};
use tpl_lang::{Align, Replacement, ReplacementPart};

/// How many of the spaces beside a text stand before it.
fn before(align: Align, room: usize) -> usize
    ensures value { result ≡ spec.before align room }
    ensures within { result ≤ room }
{
    match align {
        Align::Left => 0,
        Align::Right => room,
        Align::Center => room / 2,
    }
}

/// Appends a text with so many spaces before it, and so many behind, as far as a limit lets them
/// stand, and answers the limit for what follows.
fn push_between(
    alloc: Global,
    out: &mut String,
    limit: Limit,
    text: &str,
    before: usize,
    after: usize,
) -> Result<Limit, OutOfMemory>
    ensures text { OnOk result (string_bytes out.new
        ≡ string_bytes out.old ++ limited limit (spec.spaces before ++ text.now ++ spec.spaces after)) }
    ensures left { IfOk result (λ l. l ≡ behind limit (spec.spaces before ++ text.now ++ spec.spaces after)) }
    ensures utf8 { OnOk result (IsUtf8 (spec.spaces before ++ text.now ++ spec.spaces after)) }
{
    let limit = push_spaces(out, limit, before)?;
    let limit = push_limited(alloc, out, limit, text)?;
    push_spaces(out, limit, after)
}

/// How many spaces fill a text up to so many characters.
fn room_beside(text: &str, width: usize) -> usize
    ensures { result ≡ width - length (chars text.now) }
{
    width - count_letters_to(text, width)
}

/// Appends a text with spaces beside it, to so many characters, as far as a limit lets them stand.
fn push_aligned(
    alloc: Global,
    out: &mut String,
    limit: Limit,
    text: &str,
    align: Align,
    width: u32,
) -> Result<Limit, OutOfMemory>
    ensures text { OnOk result (string_bytes out.new ≡ string_bytes out.old ++ limited limit (spec.aligned align width text.now)) }
    ensures left { IfOk result (λ l. l ≡ behind limit (spec.aligned align width text.now)) }
    ensures utf8 { OnOk result (IsUtf8 (spec.aligned align width text.now)) }
{
    let room = room_beside(text, width as usize);
    let before = before(align, room);
    push_between(alloc, out, limit, text, before, room - before)
}

/// Appends a part of a replacement as far as a limit lets it stand, and answers the limit for what
/// follows.
fn push_part(
    alloc: Global,
    out: &mut String,
    limit: Limit,
    text: &str,
    part: &ReplacementPart,
) -> Result<Limit, OutOfMemory>
    ensures text { OnOk result (string_bytes out.new ≡ string_bytes out.old ++ limited limit (spec.replacement_part text.now part.now)) }
    ensures left { IfOk result (λ l. l ≡ behind limit (spec.replacement_part text.now part.now)) }
    ensures utf8 { OnOk result (IsUtf8 (spec.replacement_part text.now part.now)) }
{
    match part {
        ReplacementPart::Text(written) => push_limited(alloc, out, limit, written.as_str()),
        ReplacementPart::Value { align, width } => push_aligned(
            alloc, out, limit, text, *align, *width,
        ),
    }
}

/// The text of a replacement around a text, as far as a limit lets it stand.
fn around(
    alloc: Global,
    limit: Limit,
    replacement: &Replacement,
    text: &str,
) -> Result<Tree, OutOfMemory>
    ensures text { IfOk result (λ t. plain t ≡ a_text (limited limit (spec.replacement_text text.now replacement.now))) }
    ensures utf8 { OnOk result (IsUtf8 (spec.replacement_text text.now replacement.now)) }
{
    let mut out = String::new(alloc);
    let mut left = limit;
    for part in replacement.parts() {
        left = push_part(alloc, &mut out, left, text, part)?;
    }
    Ok(Tree::Text(Text::from(out)))
}

/// The text of a replacement, as far as a limit lets it stand. A value that is a text is not copied
/// for that.
pub(crate) fn replaced(
    alloc: Global,
    limit: Limit,
    replacement: &Replacement,
    value: &Tree,
) -> Result<Tree, OutOfMemory>
    ensures text { IfOk result (λ t. plain t
        ≡ a_text (limited limit (spec.replacement_text (plain_of (plain value.now)) replacement.now))) }
    ensures utf8 { OnOk result (IsUtf8 (spec.replacement_text (plain_of (plain value.now)) replacement.now)) }
{
    match value {
        Tree::Text(text) => around(alloc, limit, replacement, text.as_str()),
        _ => around(
            alloc,
            limit,
            replacement,
            plain_text(alloc, value)?.as_str(),
        ),
    }
}
