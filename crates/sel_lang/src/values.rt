//! The values of filters.

ghost use Rattle.std.specs.Prelude.{◌≡◌, ◌<◌, length, true, false, IfOk, IfErr, string_bytes};
ghost use Rattle.std.specs.Option.{option_map};
ghost use Rattle.read_base.specs.Reads.{Gives};
ghost use Rattle.text_base.specs.Number.{number_of};
ghost use Rattle.sel_lang.specs.Plain.{test_op, test_value};
ghost use Rattle.sel_lang.specs.Filters as spec;
ghost use Rattle.sel_lang.specs.Refusals.{IsNoTest};

use crate::filter::{TextOp, TextTest};
use crate::marks::{after, begins, syntax, value_word};
use crate::sel_kind::SelKind;
use read_base::ReadError;
use std::alloc::Global;
use text_base::{Num, OutOfMemory, Text, size_value};
use text_pattern::{Pattern, PatternFault};

/// The base of the letters in sizes.
const BASE: u16 = 1000;

/// The value of a field of numbers.
#[tactic(auto, unfolding(crate::specs::Filters::num_value_at))]
pub(crate) fn num_value(text: &str) -> Result<(Num, &str), ReadError<SelKind>>
    ensures { Gives (λ x. (number_of x.0, x.1.now)) result (spec.num_value_at text.now) }
{
    let (word, rest) = value_word(text)?;
    match size_value(word, BASE) {
        Some(value) => Ok((value, rest)),
        None => Err(ReadError::Fault {
            kind: SelKind::Value,
            left: text.len(),
        }),
    }
}

/// What stands up to a quote, where it stands, and behind it; a backslash takes the next character
/// as it is.
#[tactic(auto, using(crate::proofs::QuoteLemmas::ends_at, crate::proofs::QuoteLemmas::takes_at, crate::proofs::QuoteLemmas::escapes_at, crate::proofs::QuoteLemmas::opens_at, crate::proofs::QuoteLemmas::opens_behind))]
fn unquoted(alloc: Global, quote: char, text: &str) -> Result<Option<(String, &str)>, OutOfMemory>
    requires { quote < 128 }
    ensures { IfOk result (λ r. option_map (λ x. (string_bytes x.0, x.1.now)) r
        ≡ spec.unquoted quote false text.now) }
{
    let mut value = String::new(alloc);
    let mut chars = text.chars();
    'chars: while let Some(char) = chars.next() {
        if char == quote {
            return Ok(Some((value, chars.as_str())));
        }
        if char == '\\' {
            let Some(escaped) = chars.next() else {
                return Ok(None);
            };
            value.push(escaped)?;
        } else {
            value.push(char)?;
        }
    }
    Ok(None)
}

/// A value between quotes, of which the first stands at the front of the text.
fn quoted<'a>(
    alloc: Global,
    quote: char,
    text: &str,
    behind: &'a str,
) -> Result<(Text, &'a str), ReadError<SelKind>>
    requires { quote < 128 }
    ensures { Gives (λ x. (x.0, x.1.now)) result
        (spec.closed_quote text.now (spec.unquoted quote false behind.now)) }
{
    match unquoted(alloc, quote, behind)? {
        Some((value, rest)) => Ok((Text::from(value), rest)),
        None => Err(ReadError::Fault {
            kind: SelKind::Quote,
            left: text.len(),
        }),
    }
}

/// A value of a field of texts.
#[tactic(auto, unfolding(crate::specs::Filters::text_value_at))]
fn text_value(alloc: Global, text: &str) -> Result<(Text, &str), ReadError<SelKind>>
    ensures { Gives (λ x. (x.0, x.1.now)) result (spec.text_value_at text.now) }
{
    if let Some(behind) = after(b'"', text) {
        return quoted(alloc, '"', text, behind);
    }
    if let Some(behind) = after(b'\'', text) {
        return quoted(alloc, '\'', text, behind);
    }
    let (word, rest) = value_word(text)?;
    Ok((Text::new(alloc, word)?, rest))
}

/// The test of an operator with a value.
fn test_of(alloc: Global, op: TextOp, value: Text) -> Result<TextTest, PatternFault>
    ensures op { IfOk result (λ t. test_op t ≡ op) }
    ensures value { IfOk result (λ t. test_value t ≡ value) }
    ensures pattern { IfOk result (λ _. spec.can_have op value ≡ true) }
    ensures fault { IfErr result (IsNoTest op value) }
{
    match op {
        TextOp::Eq => Ok(TextTest::Eq(value)),
        TextOp::Prefix => Ok(TextTest::Prefix(value)),
        TextOp::Suffix => Ok(TextTest::Suffix(value)),
        TextOp::Contains => Ok(TextTest::Contains(value)),
        TextOp::Matches => Ok(TextTest::Matches(Pattern::new(alloc, value.as_str())?)),
    }
}

/// How many bytes are left where a value starts: behind a quote.
fn value_start(text: &str) -> usize
    ensures { result ≡ length (spec.value_start text.now) }
{
    if begins(b'"', text) || begins(b'\'', text) {
        text.len() - 1
    } else {
        text.len()
    }
}

/// The value of a field of texts, with its operator.
#[tactic(auto, unfolding(crate::specs::Filters::tested_at))]
pub(crate) fn tested(
    alloc: Global,
    op: TextOp,
    text: &str,
) -> Result<(TextTest, &str), ReadError<SelKind>>
    ensures op { IfOk result (λ x. test_op x.0 ≡ op) }
    ensures value { Gives (λ x. (test_value x.0, x.1.now)) result (spec.tested_at op text.now) }
{
    let (value, rest) = text_value(alloc, text)?;
    match test_of(alloc, op, value) {
        Ok(test) => Ok((test, rest)),
        Err(PatternFault::NotPattern) => Err(ReadError::Fault {
            kind: SelKind::Regex,
            left: value_start(text),
        }),
        Err(PatternFault::OutOfMemory) => Err(ReadError::OutOfMemory),
    }
}
