//! Comparing, adding, subtracting and multiplying numbers.

ghost use Rattle.std.specs.Prelude.{◌≡◌, ◌==◌, ◌*◌, ◌/◌, ◌%◌, ◌^◌, ◌<◌, ◌≤◌, ℤ, ◌*ℤ◌, min, not, unsigned_abs};
ghost use Rattle.std.specs.Option.{option_map};
ghost use Rattle.text_base.specs.Number.{decimal, number_of};
ghost use Rattle.text_base.specs.Arithmetic.{nano_of, compared, is_negative, decimal_in_range, rounded_decimal, sum_of, difference_of, product_of};

use crate::num_rounding::{DECIMAL_END, PAST, dec_from_tenths};
use crate::number::{Dec, Num};
use std::cmp::Ordering;

/// The thousand-millionths in 1.
const UNIT: i128 = 1_000_000_000;

/// What a product of two counts of thousand-millionths is divided by to get tenths of one.
const TENTHS_DIVISOR: u128 = 100_000_000;

/// A number's count of thousand-millionths.
pub fn nano(num: Num) -> i128
    ensures value { result ≡ nano_of (number_of num) }
    ensures bound { unsigned_abs result < 10 ^ 28 }
{
    match num {
        Num::Int(n) => i128::from(n) * UNIT,
        Num::Dec(dec) => dec.nano,
    }
}

/// The decimal of a count of thousand-millionths, where that is in range.
fn in_range(nano: i128) -> Option<Num>
    ensures { option_map number_of result ≡ decimal_in_range nano }
{
    if nano.unsigned_abs() < DECIMAL_END {
        Some(Num::Dec(Dec { nano }))
    } else {
        None
    }
}

/// How the values of two numbers compare.
pub fn num_cmp(a: Num, b: Num) -> Ordering
    ensures { result ≡ compared (number_of a) (number_of b) }
{
    nano(a).cmp(&nano(b))
}

/// The sum of two numbers, where it is in range.
pub fn num_add(a: Num, b: Num) -> Option<Num>
    ensures { option_map number_of result ≡ sum_of (number_of a) (number_of b) }
{
    match (a, b) {
        (Num::Int(a), Num::Int(b)) => a.checked_add(b).map(Num::Int),
        _ => in_range(nano(a) + nano(b)),
    }
}

/// The difference of two numbers, where it is in range.
pub fn num_sub(a: Num, b: Num) -> Option<Num>
    ensures { option_map number_of result ≡ difference_of (number_of a) (number_of b) }
{
    match (a, b) {
        (Num::Int(a), Num::Int(b)) => a.checked_sub(b).map(Num::Int),
        _ => in_range(nano(a) - nano(b)),
    }
}

/// The tenths in a product over 10^9, or PAST where that is less, and whether that cuts
/// anything off.
fn product_tenths(a: u128, b: u128) -> (u128, bool)
    requires { b < 10 ^ 28 }
    ensures count { result.0 ≡ min ((a * b) / 10 ^ 8) (10 ^ 28) }
    ensures cut { result.1 ≡ not ((a * b) % 10 ^ 8 == 0) }
{
    let low = a % TENTHS_DIVISOR * b;
    let high = (a / TENTHS_DIVISOR).saturating_mul(b);
    let tenths = high.saturating_add(low / TENTHS_DIVISOR);
    (tenths.min(PAST), low % TENTHS_DIVISOR != 0)
}

/// The product of two counts of thousand-millionths, rounded half to even, where it is in range.
fn product(a: i128, b: i128) -> Option<Dec>
    requires { unsigned_abs b < 10 ^ 28 }
    ensures { let product = a *ℤ b in
        option_map (λ d. decimal d.nano) result
        ≡ rounded_decimal (is_negative product) (unsigned_abs product) (10 ^ 9) }
{
    let (tenths, is_cut) = product_tenths(a.unsigned_abs(), b.unsigned_abs());
    dec_from_tenths((a < 0) != (b < 0), tenths, is_cut)
}

/// The product of two numbers, where it is in range.
pub fn num_mul(a: Num, b: Num) -> Option<Num>
    ensures { option_map number_of result ≡ product_of (number_of a) (number_of b) }
{
    match (a, b) {
        (Num::Int(a), Num::Int(b)) => a.checked_mul(b).map(Num::Int),
        _ => product(nano(a), nano(b)).map(Num::Dec),
    }
}
