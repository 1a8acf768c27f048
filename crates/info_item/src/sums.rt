//! Sums over the parts of a file.
ghost use Rattle.std.specs.Prelude.{◌≡◌, ◌<◌, ◌≤◌, ◌^◌, ◌+◌, ◌&&◌, ◌+ℤ◌, ◌*ℤ◌, pos, map, unsigned_abs};
ghost use Rattle.std.specs.Option.{option_map};
ghost use Rattle.text_base.specs.Number.{number_of};
ghost use Rattle.text_base.specs.Arithmetic.{nano_of};
ghost use Rattle.info_item.specs.Sums as spec;

use crate::format::Format;
use text_base::{Dec, Num, NumField, nano};

/// What is summed over the parts of a file.
#[derive(Clone, Copy)]
pub(crate) enum Measure {
    /// The bit rate.
    Rate,
    /// The size: `filesize`, else `filesize_approx`.
    Size,
}

/// So many thousand-millionths are carried, or so many below 0.
const CARRY: i128 = 1_000_000_000_000_000_000_000_000_000_000_000_000;

/// The end of the thousand-millionths of a decimal.
const DECIMAL_END: u128 = 1_000_000_000_000_000_000_000_000_000;

/// A sum that goes on, exact however many numbers there are.
#[derive(Clone, Copy)]
struct Sum {
    /// Whether all numbers are whole.
    is_whole: bool,
    /// The sum of the whole ones.
    whole: i128,
    /// The sum of all is so many carries, and the thousand-millionths beside them.
    carries: i128,
    nano: i128,
}

/// Whether all numbers are whole with one more, and the sum of the whole ones.
fn whole_with(sum: Sum, num: Num) -> (bool, i128)
    requires { unsigned_abs sum.whole + 2 ^ 63 < 2 ^ 127 }
    ensures kind { result.0 ≡ (sum.is_whole && spec.is_whole (number_of num)) }
    ensures whole { result.1 ≡ sum.whole +ℤ spec.whole_part (number_of num) }
    ensures few { unsigned_abs result.1 ≤ unsigned_abs sum.whole + 2 ^ 63 }
{
    match num {
        Num::Int(whole) => (sum.is_whole, sum.whole + i128::from(whole)),
        Num::Dec(_) => (false, sum.whole),
    }
}

/// The carries with one more number, and the thousand-millionths beside them.
fn nano_with(sum: Sum, num: Num) -> (i128, i128)
    requires carries { unsigned_abs sum.carries < 2 ^ 64 }
    requires nano { unsigned_abs sum.nano < 10 ^ 36 }
    ensures nano { result.0 *ℤ pos (10 ^ 36) +ℤ result.1 ≡ spec.nano_in sum +ℤ nano_of (number_of num) }
    ensures few { unsigned_abs result.0 ≤ unsigned_abs sum.carries + 1 }
    ensures small { unsigned_abs result.1 < 10 ^ 36 }
{
    let next = sum.nano + nano(num);
    if next >= CARRY {
        (sum.carries + 1, next - CARRY)
    } else if next <= -CARRY {
        (sum.carries - 1, next + CARRY)
    } else {
        (sum.carries, next)
    }
}

/// The sum with one more number.
fn plus(sum: Sum, num: Num) -> Sum
    requires whole { unsigned_abs sum.whole + 2 ^ 63 < 2 ^ 127 }
    requires carries { unsigned_abs sum.carries < 2 ^ 64 }
    requires nano { unsigned_abs sum.nano < 10 ^ 36 }
    ensures { spec.Adds sum (number_of num) result }
{
    let (is_whole, whole) = whole_with(sum, num);
    let (carries, nano) = nano_with(sum, num);
    Sum {
        is_whole,
        whole,
        carries,
        nano,
    }
}

/// The number that a sum is, where it is in range.
fn num_of(sum: Sum) -> Option<Num>
    requires nano { unsigned_abs sum.nano < 10 ^ 36 }
    ensures { option_map number_of result ≡ spec.number_in_range sum }
{
    if sum.is_whole {
        return i64::try_from(sum.whole).ok().map(Num::Int);
    }
    if sum.carries.unsigned_abs() > 1 {
        return None;
    }
    let nano = sum.carries * CARRY + sum.nano;
    if nano.unsigned_abs() < DECIMAL_END {
        Some(Num::Dec(Dec { nano }))
    } else {
        None
    }
}

/// The number of a part that is summed.
fn measured(part: &Format<'_>, measure: Measure) -> Option<Num>
    ensures { option_map number_of result ≡ spec.measured measure part.now }
{
    match measure {
        Measure::Rate => part.number(NumField::Tbr),
        Measure::Size => match part.number(NumField::Filesize) {
            Some(size) => Some(size),
            None => part.number(NumField::FilesizeApprox),
        },
    }
}

/// The sum over parts, where each has its number and the sum is in range.
pub(crate) fn sum_of(parts: &Vec<&Format<'_>>, measure: Measure) -> Option<Num>
    ensures { option_map number_of result
        ≡ spec.sum_over measure (map (λ f. f.now) parts.now.items) }
{
    let mut sum = Sum {
        is_whole: true,
        whole: 0,
        carries: 0,
        nano: 0,
    };
    for part in parts {
        let Some(num) = measured(part, measure) else {
            return None;
        };
        sum = plus(sum, num);
    }
    num_of(sum)
}
