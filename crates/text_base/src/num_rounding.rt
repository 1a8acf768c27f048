//! Rounding half to even.

ghost use Rattle.std.specs.Prelude.{◌≡◌, ◌^◌, ◌<◌, ◌≤◌, ℕ};
ghost use Rattle.std.specs.Option.{option_map};
ghost use Rattle.text_base.specs.Number.{decimal};
ghost use Rattle.text_base.specs.Value.{round_half_even, signed};
ghost use Rattle.text_base.specs.Arithmetic.{rounded_decimal};
ghost use Rattle.text_base.specs.Rounding.{AreTenths, is_rounded_up};

use crate::number::Dec;
use std::cmp::Ordering;

/// A size that is past every range: 10^28.
pub const PAST: u128 = 10_000_000_000_000_000_000_000_000_000;

/// The sizes of decimals are below it: 10^27 thousand-millionths.
pub const DECIMAL_END: u128 = 1_000_000_000_000_000_000_000_000_000;

/// Whether a count of tenths is rounded up, half to even.
/// `is_cut` says that the exact value is above the count.
fn rounds_up(tenths: u128, is_cut: bool) -> bool
    ensures { result ≡ is_rounded_up tenths is_cut }
{
    match (tenths % 10).cmp(&5) {
        Ordering::Less => false,
        Ordering::Equal => is_cut || (tenths / 10) % 2 == 1,
        Ordering::Greater => true,
    }
}

/// The whole number nearest to a count of tenths.
fn rounded(tenths: u128, is_cut: bool) -> u128
    requires { tenths < 10 ^ 28 }
    ensures { (n d : ℕ) → AreTenths tenths is_cut n d → result ≡ round_half_even n d }
{
    tenths / 10 + u128::from(rounds_up(tenths, is_cut))
}

pub fn with_sign(is_negative: bool, size: u128) -> i128
    requires { size ≤ 10 ^ 28 }
    ensures { result ≡ signed is_negative size }
{
    let value = size as i128;
    if is_negative { -value } else { value }
}

/// The decimal that is nearest to a count of 10^-10, or None where that is out of range.
pub fn dec_from_tenths(is_negative: bool, tenths: u128, is_cut: bool) -> Option<Dec>
    ensures { (n d : ℕ) → AreTenths tenths is_cut n d →
        option_map (λ d. decimal d.nano) result ≡ rounded_decimal is_negative n d }
{
    if tenths >= PAST {
        return None;
    }
    let size = rounded(tenths, is_cut);
    if size >= DECIMAL_END {
        return None;
    }
    Some(Dec {
        nano: with_sign(is_negative, size),
    })
}
