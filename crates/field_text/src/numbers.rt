//! Numbers in a field.
ghost use Rattle.std.specs.Prelude.{◌≡◌, ◌^◌, ◌<◌, ◌≤◌, ◌++◌, [], ◌&&◌, ◌==◌, not, if◌then◌else◌, IfOk, OnOk};
ghost use Rattle.std.specs.String.{string_bytes};
ghost use Rattle.text_base.specs.Number.{number_of};
ghost use Rattle.text_base.specs.Arithmetic.{is_negative};
ghost use Rattle.field_text.specs.Numbers as spec;

use crate::digits::{push_last_digits, push_times};
use crate::radix::Radix;
use crate::sign::Sign;
use itoa::Buffer;
use std::alloc::Global;
use std::cmp::Ordering;
use text_base::{Num, OutOfMemory, Text, nano};

/// The thousand-millionths in 1.
const UNIT: u128 = 1_000_000_000;

/// A number that is cut off toward 0.
#[derive(Clone, Copy, Debug)]
pub struct IntegerForm {
    pub radix: Radix,
    pub sign: Sign,
    /// The radix is told by a prefix, as `0x`.
    pub prefixed: bool,
    /// The least count of digits.
    pub least: usize,
    /// Zeros before the digits fill the text up to this width.
    pub width: usize,
}

/// A number with decimals.
#[derive(Clone, Copy, Debug)]
pub struct DecimalForm {
    pub sign: Sign,
    /// How many decimals.
    pub places: usize,
    /// Zeros before the digits fill the text up to this width.
    pub width: usize,
}

/// A number cut off toward 0.
#[tactic(auto, unfolding(crate::specs::Numbers::integer_text))]
pub fn integer_text(alloc: Global, form: IntegerForm, n: Num) -> Result<Text, OutOfMemory>
    ensures { IfOk result (λ t. t ≡ spec.integer_text form (number_of n)) }
{
    let nano = nano(n);
    let size = nano.unsigned_abs() / UNIT;
    let sign = sign_of(form.sign, has_minus(nano, size));
    let prefix = prefix_in(form);
    let spelled = digits_of(alloc, form.radix, size as u64)?;
    let digits = at_least(alloc, form.least, spelled.as_str())?;
    filled(alloc, form.width, sign, prefix, digits.as_str())
}

/// A number with so many decimals, rounded half to even.
#[tactic(auto, unfolding(crate::specs::Numbers::decimal_text))]
pub fn decimal_text(alloc: Global, form: DecimalForm, n: Num) -> Result<Text, OutOfMemory>
    ensures { IfOk result (λ t. t ≡ spec.decimal_text form (number_of n)) }
{
    let nano = nano(n);
    let count = rounded(nano.unsigned_abs(), form.places);
    let sign = sign_of(form.sign, has_minus(nano, count));
    let digits = decimal_digits(alloc, count, form.places)?;
    filled(alloc, form.width, sign, "", digits.as_str())
}

/// Whether a number has a minus: what is cut off or rounded to 0 has none.
fn has_minus(nano: i128, size: u128) -> bool
    ensures { result ≡ (is_negative nano && not (size == 0)) }
{
    nano < 0 && size > 0
}

/// A sign, a prefix and digits, with zeros before the digits up to a width.
fn filled(
    alloc: Global,
    width: usize,
    sign: &str,
    prefix: &str,
    digits: &str,
) -> Result<Text, OutOfMemory>
    ensures { IfOk result (λ t. t ≡ spec.filled width sign.now prefix.now digits.now) }
{
    let room = width
        .saturating_sub(sign.len())
        .saturating_sub(prefix.len());
    let mut out = String::new(alloc);
    out.push_str(sign)?;
    out.push_str(prefix)?;
    push_at_least(&mut out, room, digits)?;
    Ok(Text::from(out))
}

/// Digits behind as many zeros as make them so many.
fn at_least(alloc: Global, least: usize, digits: &str) -> Result<String, OutOfMemory>
    ensures { IfOk result (λ t. string_bytes t ≡ spec.at_least least digits.now) }
{
    let mut out = String::new(alloc);
    push_at_least(&mut out, least, digits)?;
    Ok(out)
}

fn push_at_least(out: &mut String, least: usize, digits: &str) -> Result<(), OutOfMemory>
    ensures { OnOk result (string_bytes out.new ≡ string_bytes out.old ++ spec.at_least least digits.now) }
{
    push_times(out, '0', least.saturating_sub(digits.len()))?;
    out.push_str(digits)?;
    Ok(())
}

/// A size of thousand-millionths, rounded half to even to so many decimals.
fn rounded(size: u128, places: usize) -> u128
    requires { size < 10 ^ 28 }
    ensures value { result ≡ spec.rounded places size }
    ensures bound { result ≤ 10 ^ 28 }
{
    let unit = 10u128.pow(9 - places.min(9) as u32);
    let whole = size / unit;
    let rest = size % unit;
    match (2 * rest).cmp(&unit) {
        Ordering::Less => whole,
        Ordering::Greater => whole + 1,
        Ordering::Equal => whole + whole % 2,
    }
}

/// The digits of a count of the last of so many decimals.
fn decimal_digits(alloc: Global, count: u128, places: usize) -> Result<String, OutOfMemory>
    ensures { IfOk result (λ t. string_bytes t ≡ spec.decimal_digits places count) }
{
    let unit = 10u128.pow(places.min(9) as u32);
    let mut out = String::new(alloc);
    out.push_str(Buffer::new().format(count / unit))?;
    push_decimals(&mut out, count, places)?;
    Ok(out)
}

/// A point and so many decimals; nothing where there are none.
fn push_decimals(out: &mut String, count: u128, places: usize) -> Result<(), OutOfMemory>
    ensures { OnOk result (string_bytes out.new ≡ string_bytes out.old ++ spec.decimals_of places count) }
{
    if places == 0 {
        return Ok(());
    }
    out.push_str(".")?;
    push_last_digits(out, count, places.min(9) as u32)?;
    push_times(out, '0', places.saturating_sub(9))
}

fn digits_of(alloc: Global, radix: Radix, size: u64) -> Result<String, OutOfMemory>
    ensures { IfOk result (λ t. string_bytes t ≡ spec.digits_of radix size) }
{
    Ok(match radix {
        Radix::Decimal => format!(in alloc; "{size}")?,
        Radix::Octal => format!(in alloc; "{size:o}")?,
        Radix::LowerHex => format!(in alloc; "{size:x}")?,
        Radix::UpperHex => format!(in alloc; "{size:X}")?,
    })
}

fn sign_of(sign: Sign, negative: bool) -> &'static str
    ensures { result.now ≡ spec.sign_of sign negative }
{
    match (negative, sign) {
        (true, _) => "-",
        (false, Sign::Minus) => "",
        (false, Sign::Plus) => "+",
        (false, Sign::Space) => " ",
    }
}

/// What tells the radix of a number, where that is asked for.
fn prefix_in(form: IntegerForm) -> &'static str
    ensures { result.now ≡ (if form.prefixed then spec.prefix_of form.radix else []) }
{
    if form.prefixed {
        prefix_of(form.radix)
    } else {
        ""
    }
}

fn prefix_of(radix: Radix) -> &'static str
    ensures { result.now ≡ spec.prefix_of radix }
{
    match radix {
        Radix::Decimal => "",
        Radix::Octal => "0o",
        Radix::LowerHex => "0x",
        Radix::UpperHex => "0X",
    }
}
