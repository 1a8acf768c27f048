//! Sizes as users write them: a number and a unit.

ghost use Rattle.std.specs.Prelude.{◌≡◌, ◌+◌, ◌^◌, ◌<◌, ◌≤◌, length, pos};
ghost use Rattle.std.specs.Option.{option_map, option_and_then};
ghost use Rattle.text_base.specs.Number.{number_of};
ghost use Rattle.text_base.specs.Arithmetic.{whole_in_range, decimal_in_range};
ghost use Rattle.text_base.specs.Spelled.{AreDigits};
ghost use Rattle.text_base.specs.Size as spec;

use crate::num_rounding::DECIMAL_END;
use crate::num_spelling::digits_len;
use crate::num_value::{append_zeros, count_on};
use crate::number::{Dec, Num};

/// The most digits behind the point.
const DECIMALS: usize = 9;

/// The power of the base that a letter stands for; 0 for any other byte.
fn power(letter: u8) -> u32
    ensures value { result ≡ spec.power_of letter }
    ensures bound { result ≤ 5 }
{
    match letter {
        b'K' | b'k' => 1,
        b'M' | b'm' => 2,
        b'G' | b'g' => 3,
        b'T' | b't' => 4,
        b'P' | b'p' => 5,
        _ => 0,
    }
}

/// A base to a power.
fn raised(base: u16, power: u32) -> u128
    requires { power ≤ 5 }
    ensures { result ≡ base ^ power }
{
    u128::from(base).pow(power)
}

/// Whether nothing is left of a unit but a mark for bytes.
fn is_last(rest: &[u8]) -> bool
    ensures { result ≡ spec.is_last rest.now }
{
    matches!(rest, [] | [b'B' | b'b'])
}

/// The factor of a letter, by what stands behind it.
fn factor_by_letter(base: u16, power: u32, behind: &[u8]) -> Option<u128>
    requires { power ≤ 5 }
    ensures { result ≡ spec.factor_by_letter base power behind.now }
{
    match behind {
        [b'i', last @ ..] if is_last(last) => Some(raised(1024, power)),
        _ if is_last(behind) => Some(raised(base, power)),
        _ => None,
    }
}

/// The factor that a unit stands for.
fn factor(base: u16, unit: &[u8]) -> Option<u128>
    ensures { result ≡ spec.factor_of base unit.now }
{
    match unit {
        [letter, behind @ ..] if power(*letter) > 0 => {
            factor_by_letter(base, power(*letter), behind)
        }
        _ if is_last(unit) => Some(1),
        _ => None,
    }
}

/// The digits at the front, and what stands behind them.
fn split_digits(bytes: &[u8]) -> (&[u8], &[u8])
    ensures front { result.0.now ≡ spec.digits_front bytes.now }
    ensures behind { result.1.now ≡ spec.digits_behind bytes.now }
    ensures digits { AreDigits result.0.now }
{
    bytes.split_at(digits_len(bytes))
}

/// A whole number, where it fits 64 bits.
fn whole(size: u128) -> Option<Num>
    ensures { option_map number_of result ≡ whole_in_range (pos size) }
{
    match i64::try_from(size) {
        Ok(size) => Some(Num::Int(size)),
        Err(_) => None,
    }
}

/// A decimal by its count of thousand-millionths, where it is in range.
fn decimal(nano: u128) -> Option<Num>
    ensures { option_map number_of result ≡ decimal_in_range (pos nano) }
{
    if nano >= DECIMAL_END {
        return None;
    }
    Some(Num::Dec(Dec { nano: nano as i128 }))
}

/// A size without a point.
fn whole_size(base: u16, int: &[u8], unit: &[u8]) -> Option<Num>
    requires { AreDigits int.now }
    ensures { option_map number_of result
        ≡ option_and_then (spec.whole_size int.now) (spec.factor_of base unit.now) }
{
    let factor = factor(base, unit)?;
    whole(count_on(0, int).saturating_mul(factor))
}

/// A size with a point, by what stands behind it.
fn decimal_size(base: u16, int: &[u8], behind: &[u8]) -> Option<Num>
    requires { AreDigits int.now }
    ensures { option_map number_of result ≡ spec.size_behind_point base int.now behind.now }
{
    let (frac, unit) = split_digits(behind);
    if frac.is_empty() || frac.len() > DECIMALS {
        return None;
    }
    let factor = factor(base, unit)?;
    let count = count_on(count_on(0, int), frac);
    let zeros = (DECIMALS - frac.len()) as u32;
    decimal(append_zeros(count, zeros).saturating_mul(factor))
}

/// The size that bytes spell, where it is one and in range; a letter of its unit stands for a
/// power of the base.
pub fn size_of_bytes(bytes: &[u8], base: u16) -> Option<Num>
    ensures { option_map number_of result ≡ spec.size_of base bytes.now }
{
    let (int, behind) = split_digits(bytes);
    if int.is_empty() {
        return None;
    }
    match behind {
        [b'.', behind @ ..] => decimal_size(base, int, behind),
        _ => whole_size(base, int, behind),
    }
}

/// The size that a text spells, where it is one and in range; a letter of its unit stands for a
/// power of the base.
pub fn size_value(text: &str, base: u16) -> Option<Num>
    ensures { option_map number_of result ≡ spec.size_of base text.now }
{
    size_of_bytes(text.as_bytes(), base)
}
