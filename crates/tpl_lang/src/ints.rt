//! Whole numbers of a path.

ghost use Rattle.std.specs.Prelude.{◌≡◌, ◌<◌, ◌≤◌, IfOk, length, drop};
ghost use Rattle.std.specs.List.{prefix_len};
ghost use Rattle.text_base.specs.Spelling.{is_digit};
ghost use Rattle.text_base.specs.Value.{digits_value};
ghost use Rattle.read_base.specs.Reads.{Gives};
ghost use Rattle.read_base.specs.Spelled.{AreAll};
ghost use Rattle.tpl_lang.specs.Ints as spec;

use crate::scan::{Class, begins, begins_word, run, run_len};
use crate::tpl_kind::{TplKind, fault};
use read_base::ReadError;

/// The most digits of an int.
const DIGITS: usize = 18;

/// Whether 1 to 18 digits and no other byte of a word stand at the front.
pub(crate) fn begins_int(text: &str) -> bool
    ensures { result ≡ spec.begins_int text.now }
{
    let (digits, rest) = run(Class::Digit, text);
    1 <= digits.len() && digits.len() <= DIGITS && !begins_word(rest)
}

/// What an int counts.
pub(crate) fn int_value(spelling: &str) -> i64
    requires digits { AreAll is_digit (drop (spec.minus_length spelling.now) spelling.now) }
    requires some { 0 < length (drop (spec.minus_length spelling.now) spelling.now) }
    requires few { length (drop (spec.minus_length spelling.now) spelling.now) ≤ 18 }
    ensures { result ≡ spec.int_value spelling.now }
{
    match spelling.parse::<i64>() {
        Ok(value) => value,
        Err(_) => unreachable!(),
    }
}

/// What up to five digits count.
pub(crate) fn count_of(digits: &str) -> u32
    requires digits { AreAll is_digit digits.now }
    requires some { 0 < length digits.now }
    requires few { length digits.now ≤ 5 }
    ensures { result ≡ digits_value digits.now }
{
    match digits.parse::<u32>() {
        Ok(count) => count,
        Err(_) => unreachable!(),
    }
}

/// The length of a minus at the front.
fn minus_len(text: &str) -> usize
    ensures { result ≡ spec.minus_length text.now }
{
    if begins(b'-', text) { 1 } else { 0 }
}

/// How many digits an int has, behind its minus.
#[tactic(auto, unfolding(crate::specs::Ints::int_length))]
fn int_len(digits: &str) -> Result<usize, ReadError<TplKind>>
    ensures count { Gives (λ n. n) result (spec.int_length digits.now) }
    ensures few { IfOk result (λ n. n ≤ 18) }
{
    let len = run_len(Class::Digit, digits);
    if len == 0 {
        return Err(fault(TplKind::Syntax, digits));
    }
    if len > DIGITS {
        let (_, from) = digits.split_at(DIGITS);
        return Err(fault(TplKind::Syntax, from));
    }
    let (_, rest) = digits.split_at(len);
    if begins_word(rest) {
        return Err(fault(TplKind::Syntax, rest));
    }
    Ok(len)
}

/// An int as it is spelled.
#[tactic(auto, unfolding(crate::specs::Ints::int_at))]
pub(crate) fn int(text: &str) -> Result<(&str, &str), ReadError<TplKind>>
    ensures { Gives (λ x. (x.0.now, x.1.now)) result (spec.int_at text.now) }
{
    let minus = minus_len(text);
    let (_, digits) = text.split_at(minus);
    let len = int_len(digits)?;
    Ok(text.split_at(minus + len))
}
