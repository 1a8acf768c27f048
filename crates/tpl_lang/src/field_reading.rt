//! Fields: expressions, a replacement, a default and a conversion.

ghost use Rattle.std.specs.Prelude.{◌≡◌, ℕ, ◌≤◌, List, drop, length, true, Some, None, IfSome, IfNone};
ghost use Rattle.std.specs.Option.{option_map};
ghost use Rattle.read_base.specs.Reads.{Gives, is_at};
ghost use Rattle.tpl_lang.specs.FieldReading as spec;

use crate::conv::{Conv, Flags, Kind};
use crate::expr_reading::exprs;
use crate::field::Field;
use crate::ints::count_of;
use crate::listed::{Listed, all_of};
use crate::replacement::{Align, Replacement, ReplacementPart};
use crate::scan::{Class, begins, behind, expect, run, run_len, some_run};
use crate::tpl_kind::{TplKind, fault};
use read_base::ReadError;
use std::alloc::Global;
use text_base::Text;

/// The most digits of a width and of a precision.
const DIGITS: usize = 5;

/// Another piece of a replacement.
impl Listed for ReplacementPart {
    ghost use Rattle.tpl_lang.specs.FieldReading.{in_replacement, replacement_part_at};

    ghost test = { in_replacement };

    ghost item = { replacement_part_at };

    fn begins(text: &str) -> bool {
        match text.as_bytes() {
            [first, ..] => !matches!(*first, b'|' | b')'),
            [] => false,
        }
    }

    fn read(alloc: Global, text: &str) -> Result<(ReplacementPart, &str), ReadError<TplKind>> {
        replacement_part(alloc, text)
    }
}

/// The fault of a brace; `rest` begins with what can't stand behind it.
fn refused_brace(brace: &str, rest: &str) -> ReadError<TplKind>
    ensures { Gives (λ (x : (ReplacementPart × List ℕ)). x) (Err result) (spec.refused_brace brace.now rest.now) }
{
    if rest.is_empty() {
        fault(TplKind::Syntax, rest)
    } else {
        fault(TplKind::Brace, brace)
    }
}

/// The side on which a value stands.
fn align_of(text: &str) -> Option<Align>
    ensures { result ≡ spec.align_of text.now }
{
    match text.as_bytes() {
        [b'<', ..] => Some(Align::Left),
        [b'>', ..] => Some(Align::Right),
        [b'^', ..] => Some(Align::Center),
        _ => None,
    }
}

/// The side and the width behind `{:`.
fn aligned<'a>(
    brace: &'a str,
    text: &'a str,
) -> Result<(ReplacementPart, &'a str), ReadError<TplKind>>
    ensures { Gives (λ x. (x.0, x.1.now)) result (spec.aligned_at brace.now text.now (spec.align_of text.now)) }
{
    let Some(align) = align_of(text) else {
        return Err(refused_brace(brace, text));
    };
    let (_, behind_side) = text.split_at(1);
    let len = run_len(Class::Digit, behind_side);
    let (digits, rest) = run(Class::Digit, behind_side);
    if len > DIGITS {
        return Err(fault(TplKind::Brace, brace));
    }
    if len == 0 {
        return Err(refused_brace(brace, rest));
    }
    match behind(b'}', rest) {
        Some(behind) => {
            let width = count_of(digits);
            Ok((ReplacementPart::Value { align, width }, behind))
        }
        None => Err(refused_brace(brace, rest)),
    }
}

/// A value from its `{` on.
#[tactic(auto, unfolding(crate::specs::FieldReading::value_at))]
fn value<'a>(
    brace: &'a str,
    rest: &'a str,
) -> Result<(ReplacementPart, &'a str), ReadError<TplKind>>
    requires { rest.now ≡ drop 1 brace.now }
    ensures { Gives (λ x. (x.0, x.1.now)) result (spec.value_at brace.now) }
{
    if let Some(behind) = behind(b'}', rest) {
        let align = Align::Left;
        return Ok((ReplacementPart::Value { align, width: 0 }, behind));
    }
    match behind(b':', rest) {
        Some(side) => aligned(brace, side),
        None => Err(refused_brace(brace, rest)),
    }
}

/// A piece of a replacement.
#[tactic(auto, unfolding(crate::specs::FieldReading::replacement_part_at))]
fn replacement_part(
    alloc: Global,
    text: &str,
) -> Result<(ReplacementPart, &str), ReadError<TplKind>>
    ensures { Gives (λ x. (x.0, x.1.now)) result (spec.replacement_part_at text.now) }
{
    if let Some(rest) = behind(b'{', text) {
        return match behind(b'{', rest) {
            Some(behind) => Ok((ReplacementPart::Text(Text::new(alloc, "{")?), behind)),
            None => value(text, rest),
        };
    }
    if let Some(rest) = behind(b'}', text) {
        return match behind(b'}', rest) {
            Some(behind) => Ok((ReplacementPart::Text(Text::new(alloc, "}")?), behind)),
            None => Err(refused_brace(text, rest)),
        };
    }
    let (run, rest) = some_run(Class::ReplacementText, text)?;
    Ok((ReplacementPart::Text(Text::new(alloc, run)?), rest))
}

/// A replacement, where one stands.
#[tactic(auto, unfolding(crate::specs::FieldReading::replacement_at))]
fn replacement(alloc: Global, text: &str) -> Result<(Option<Replacement>, &str), ReadError<TplKind>>
    ensures { Gives (λ x. (x.0, x.1.now)) result (spec.replacement_at text.now) }
{
    let Some(behind) = behind(b'&', text) else {
        return Ok((None, text));
    };
    let (parts, rest) = all_of::<ReplacementPart>(alloc, behind)?;
    Ok((Some(Replacement::new(parts)), rest))
}

/// A default, where one stands, and what stands behind it.
fn default(alloc: Global, text: &str) -> Result<(Option<Text>, &str), ReadError<TplKind>>
    ensures { Gives (λ x. (x.0, x.1.now)) result (Ok (spec.default_of text.now)) }
{
    let Some(behind) = behind(b'|', text) else {
        return Ok((None, text));
    };
    let (default, rest) = run(Class::Default, behind);
    Ok((Some(Text::new(alloc, default)?), rest))
}

fn has_flag(run: &str, flag: u8) -> bool
    ensures { result ≡ spec.has_flag flag run.now }
{
    run.as_bytes().iter().any(|b| *b == flag)
}

fn flags(run: &str) -> Flags
    ensures { result ≡ spec.flags_of run.now }
{
    Flags {
        alternate: has_flag(run, b'#'),
        zero: has_flag(run, b'0'),
        left: has_flag(run, b'-'),
        plus: has_flag(run, b'+'),
        space: has_flag(run, b' '),
    }
}

/// At most five digits, where digits stand.
#[tactic(auto, unfolding(crate::specs::FieldReading::short_at))]
fn short(text: &str) -> Result<(Option<u32>, &str), ReadError<TplKind>>
    ensures { Gives (λ x. (x.0, x.1.now)) result (spec.short_at text.now) }
{
    let (digits, rest) = run(Class::Digit, text);
    if digits.is_empty() {
        return Ok((None, text));
    }
    if digits.len() > DIGITS {
        let (_, from) = text.split_at(DIGITS);
        return Err(fault(TplKind::Syntax, from));
    }
    Ok((Some(count_of(digits)), rest))
}

/// A precision, where one stands.
#[tactic(auto, unfolding(crate::specs::FieldReading::precision_at, crate::specs::FieldReading::short_at))]
fn precision(text: &str) -> Result<(Option<u32>, &str), ReadError<TplKind>>
    ensures { Gives (λ x. (x.0, x.1.now)) result (spec.precision_at text.now) }
{
    let Some(digits) = behind(b'.', text) else {
        return Ok((None, text));
    };
    match short(digits)? {
        (None, rest) if rest.is_empty() => Err(fault(TplKind::TypeLetter, rest)),
        (None, rest) => Err(fault(TplKind::Syntax, rest)),
        (precision, rest) => Ok((precision, rest)),
    }
}

/// The type of a letter.
fn kind_of(letter: u8) -> Option<Kind>
    ensures { result ≡ spec.kind_of letter }
{
    match letter {
        b'd' | b'i' | b'u' => Some(Kind::Integer),
        b'o' => Some(Kind::Octal),
        b'x' => Some(Kind::LowerHex),
        b'X' => Some(Kind::UpperHex),
        b'f' | b'F' => Some(Kind::Decimal),
        b's' => Some(Kind::Text),
        b'B' => Some(Kind::Bytes),
        b'j' => Some(Kind::Json),
        b'h' => Some(Kind::Html),
        b'l' => Some(Kind::List),
        b'q' => Some(Kind::Quoted),
        b'D' => Some(Kind::Suffixed),
        b'S' => Some(Kind::Sanitized),
        b'U' => Some(Kind::Unicode),
        _ => None,
    }
}

/// The type of the letter that stands first.
fn first_kind(text: &str) -> Option<Kind>
    ensures { result ≡ spec.first_kind text.now }
{
    match text.as_bytes() {
        [first, ..] => kind_of(*first),
        [] => None,
    }
}

/// Whether a length stands first.
fn begins_length(text: &str) -> bool
    ensures { result ≡ spec.begins_length text.now }
{
    match text.as_bytes() {
        [first, ..] => matches!(*first, b'h' | b'l' | b'L'),
        [] => false,
    }
}

/// What stands behind a length, where one stands before a type.
fn behind_length(text: &str) -> &str
    ensures { result.now ≡ spec.behind_length text.now }
{
    if begins_length(text) {
        let (_, rest) = text.split_at(1);
        if first_kind(rest).is_some() {
            return rest;
        }
    }
    text
}

/// A type, with the length before it.
fn kind(text: &str) -> Result<(Kind, &str), ReadError<TplKind>>
    ensures { Gives (λ x. (x.0, x.1.now)) result (spec.type_at text.now) }
{
    let text = behind_length(text);
    if let Some(kind) = first_kind(text) {
        let (_, rest) = text.split_at(1);
        return Ok((kind, rest));
    }
    match text.as_bytes() {
        [first, ..] if !first.is_ascii_alphabetic() => Err(fault(TplKind::Syntax, text)),
        _ => Err(fault(TplKind::TypeLetter, text)),
    }
}

/// A conversion.
#[tactic(auto, unfolding(crate::specs::FieldReading::conv_at))]
fn conv(text: &str) -> Result<(Conv, &str), ReadError<TplKind>>
    ensures { Gives (λ x. (x.0, x.1.now)) result (spec.conv_at text.now) }
{
    let (signs, rest) = run(Class::Flag, text);
    let flags = flags(signs);
    let (width, rest) = short(rest)?;
    let (precision, rest) = precision(rest)?;
    let (kind, rest) = kind(rest)?;
    let conv = Conv {
        flags,
        width,
        precision,
        kind,
    };
    Ok((conv, rest))
}

/// Whether a word, `)` and `s` stand at the front.
fn is_bare(text: &str) -> bool
    ensures { result ≡ spec.is_bare text.now }
{
    let (_, rest) = run(Class::Word, text);
    match behind(b')', rest) {
        Some(conv) => begins(b's', conv),
        None => false,
    }
}

/// A field behind its `%(`.
#[tactic(auto, unfolding(crate::specs::FieldReading::field_at))]
pub(crate) fn field(alloc: Global, text: &str) -> Result<(Field, &str), ReadError<TplKind>>
    ensures { Gives (λ x. (x.0, x.1.now)) result (spec.field_at text.now) }
{
    let (exprs, rest) = exprs(alloc, text)?;
    let (replacement, rest) = replacement(alloc, rest)?;
    let (default, rest) = default(alloc, rest)?;
    let rest = expect(b')', rest)?;
    let (conv, rest) = conv(rest)?;
    let field = Field::new(exprs, replacement, default, conv, is_bare(text));
    Ok((field, rest))
}
