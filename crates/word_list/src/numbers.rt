//! Numbers as values.

ghost use Rattle.std.specs.Prelude.{◌≡◌, ◌<◌, ◌≤◌, ◌^◌, ◌-◌, IfOk, true};
ghost use Rattle.std.specs.List.{list_all};
ghost use Rattle.text_base.specs.Spelled.{AreDigits};
ghost use Rattle.word_list.specs.Faults.{Gives};
ghost use Rattle.word_list.specs.Values as spec;

use crate::fault::{OptionFault, ValueFault};

/// The most that 64 bits hold.
const MOST: u128 = 18_446_744_073_709_551_615;

/// The number that a value spells, from one bound to another.
#[tactic(auto, unfolding(crate::specs::Values::number_of))]
pub fn number(value: &str, low: u64, high: u64) -> Result<u64, ValueFault>
    requires { high < 2 ^ 64 - 1 }
    ensures number { Gives (λ n. n) result (spec.number_of low high value.now) }
    ensures bound { IfOk result (λ n. n ≤ high) }
{
    if !is_number(value) {
        return Err(ValueFault::Bad(OptionFault::BadValue));
    }
    let count = count_of(value.as_bytes());
    if !is_within(low, high, count) {
        return Err(ValueFault::Bad(OptionFault::BadValue));
    }
    Ok(count)
}

fn is_within(low: u64, high: u64, count: u64) -> bool
    ensures { result ≡ spec.is_within low high count }
{
    low <= count && count <= high
}

/// Whether a text spells a number.
fn is_number(text: &str) -> bool
    ensures value { result ≡ spec.is_number text.now }
    ensures digits { result ≡ true → AreDigits text.now }
{
    match text.as_bytes() {
        b"0" => true,
        [] | [b'0', ..] => false,
        digits => are_digits(digits),
    }
}

fn are_digits(bytes: &[u8]) -> bool
    ensures value { result ≡ list_all spec.is_digit bytes.now }
    ensures each { result ≡ true → AreDigits bytes.now }
{
    bytes.iter().all(|byte| *byte >= b'0' && *byte <= b'9')
}

/// What digits count, or the most that 64 bits hold.
fn count_of(digits: &[u8]) -> u64
    requires { AreDigits digits.now }
    ensures { result ≡ spec.capped_value digits.now }
{
    let mut count: u128 = 0;
    for digit in digits {
        count = (10 * count + u128::from(*digit - b'0')).min(MOST);
    }
    count as u64
}
