//! The value of a spelled number.

ghost use Rattle.std.specs.Prelude.{◌≡◌, ◌==◌, ◌+◌, ◌*◌, ◌/◌, ◌%◌, ◌^◌, ◌<◌, ◌≤◌, ◌&&◌, ◌||◌, ℕ, nat_lt, min, not, length, if◌then◌else◌, MatchOption, Some, None};
ghost use Rattle.std.specs.Option.{option_map};
ghost use Rattle.text_base.specs.Number.{whole, decimal, number_of};
ghost use Rattle.text_base.specs.Value.{digits_value, numerator, denominator, round_half_even, signed, whole_value, decimal_value};
ghost use Rattle.text_base.specs.Rounding.{AreTenths};
ghost use Rattle.text_base.specs.Spelled.{spelled_parts, place, AreDigits, HasDigits, counted_on};

use crate::num_rounding::{PAST, dec_from_tenths, with_sign};
use crate::num_spelling::Spelled;
use crate::number::{Dec, Num};

/// An exponent that is past every range, and before it every digit is behind the place of 10^-10.
const EXPONENT_END: u128 = 1000;

/// What digits count behind a count, or PAST where that is less.
pub fn count_on(mut count: u128, digits: &[u8]) -> u128
    requires digits { AreDigits digits.now }
    requires bound { count ≤ 10 ^ 28 }
    ensures { result ≡ min (counted_on count digits.now) (10 ^ 28) }
{
    for digit in digits {
        count = (10 * count + u128::from(*digit - b'0')).min(PAST);
    }
    count
}

/// A count with zeros appended, or PAST where that is less.
pub fn append_zeros(count: u128, zeros: u32) -> u128
    requires { count ≤ 10 ^ 28 }
    ensures { result ≡ min (count * 10 ^ zeros) (10 ^ 28) }
{
    if count == 0 {
        return 0;
    }
    match 10u128.checked_pow(zeros) {
        Some(power) => count.saturating_mul(power).min(PAST),
        None => PAST,
    }
}

fn has_nonzero(digits: &[u8]) -> bool
    requires { AreDigits digits.now }
    ensures { result ≡ not (digits_value digits.now == 0) }
{
    for digit in digits {
        if *digit != b'0' {
            return true;
        }
    }
    false
}

/// How many digits stand before the place of 10^-10, counted from the first one.
fn place_of_tenths(spelled: &Spelled<'_>) -> usize
    requires digits { AreDigits spelled.now.exponent.now }
    requires short { length spelled.now.int.now ≤ 64 }
    ensures { let p = spelled_parts spelled.now in
        result ≡ place p (min (digits_value p.exponent) 1000) }
{
    let exponent = count_on(0, spelled.exponent).min(EXPONENT_END) as usize;
    let place = spelled.int.len() + 10;
    if spelled.exponent_is_negative {
        place.saturating_sub(exponent)
    } else {
        place + exponent
    }
}

/// The count of 10^-10 in a number's size, or PAST where that is less, and whether that cuts
/// anything off.
fn tenths(spelled: &Spelled<'_>) -> (u128, bool)
    requires digits { HasDigits (spelled_parts spelled.now) }
    requires short { length spelled.now.int.now + length spelled.now.frac.now ≤ 64 }
    ensures { let p = spelled_parts spelled.now in
        AreTenths result.0 result.1 (numerator p) (denominator p) }
{
    let place = place_of_tenths(spelled);
    let (int, cut_int) = spelled.int.split_at(place.min(spelled.int.len()));
    let place = place - int.len();
    let (frac, cut_frac) = spelled.frac.split_at(place.min(spelled.frac.len()));
    let zeros = place - frac.len();
    let count = append_zeros(count_on(count_on(0, int), frac), zeros as u32);
    let is_cut = has_nonzero(cut_int) || has_nonzero(cut_frac);
    (count, is_cut)
}

fn whole(spelled: &Spelled<'_>) -> Option<i64>
    requires { AreDigits spelled.now.int.now }
    ensures { option_map whole result ≡ whole_value (spelled_parts spelled.now) }
{
    let size = count_on(0, spelled.int);
    i64::try_from(with_sign(spelled.is_negative, size)).ok()
}

fn decimal(spelled: &Spelled<'_>) -> Option<Dec>
    requires digits { HasDigits (spelled_parts spelled.now) }
    requires short { length spelled.now.int.now + length spelled.now.frac.now ≤ 64 }
    ensures { option_map (λ d. decimal d.nano) result ≡ decimal_value (spelled_parts spelled.now) }
{
    let (tenths, is_cut) = tenths(spelled);
    dec_from_tenths(spelled.is_negative, tenths, is_cut)
}

/// The value of a number that is spelled so, where it is in range.
pub fn value_of(spelled: &Spelled<'_>) -> Option<Num>
    requires digits { HasDigits (spelled_parts spelled.now) }
    requires short { length spelled.now.int.now + length spelled.now.frac.now ≤ 64 }
    ensures { let p = spelled_parts spelled.now in
        option_map number_of result ≡ (if p.is_whole then whole_value p else decimal_value p) }
{
    if spelled.is_whole {
        whole(spelled).map(Num::Int)
    } else {
        decimal(spelled).map(Num::Dec)
    }
}
