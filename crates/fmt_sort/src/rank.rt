//! The rank of a value under a field.

ghost use Rattle.std.specs.Prelude.{◌≡◌, ◌<◌, ◌^◌, unsigned_abs, pos, ◌-ℤ◌, true, false, Some};
ghost use Rattle.std.specs.Option.{option_map};
ghost use Rattle.fmt_sort.specs.Rank as spec;
ghost use Rattle.fmt_sort.specs.Spec.{bound_of, wanted_of};
ghost use Rattle.fmt_sort.specs.ValueParts.{plain_rank, plain_value, IsSmall};

use crate::limit::Limit;
use crate::sort_field::SortField;
use crate::value::{UNIT, Value};
use std::cmp::Ordering;
use text_base::nano;

/// The middle of a rank: a number, or a text, which is compared by bytes.
#[derive(Clone, Copy, Debug, PartialEq, Eq, PartialOrd, Ord)]
pub(crate) enum Middle<'a> {
    Number(i128),
    Text(&'a str),
}

/// A rank, which is compared from the left; the greater is better.
#[derive(Clone, Copy, Debug, PartialEq, Eq, PartialOrd, Ord)]
pub(crate) struct Rank<'a> {
    group: i8,
    middle: Middle<'a>,
    last: i128,
}

impl Rank<'_> {
    ghost use Rattle.std.specs.Prelude.{◌≡◌};
    ghost use Rattle.fmt_sort.specs.Rank as spec;
    ghost use Rattle.fmt_sort.specs.ValueParts.{plain_rank};

    /// How two ranks compare; Greater says that this one is better.
    pub fn compared(&self, other: &Rank<'_>) -> Ordering
        ensures { result ≡ spec.rank_cmp (plain_rank self.now) (plain_rank other.now) }
    {
        self.cmp(other)
    }
}

/// The rank of these numbers.
fn triple<'a>(group: i8, number: i128, last: i128) -> Rank<'a>
    ensures { plain_rank result ≡ spec.triple group number last }
{
    Rank {
        group,
        middle: Middle::Number(number),
        last,
    }
}

/// A limit's count of thousand-millionths.
fn limit_amount(limit: Limit) -> i128
    ensures value { result ≡ spec.limit_amount (bound_of limit) }
    ensures bound { unsigned_abs result < 10 ^ 28 }
{
    match limit {
        Limit::Number(number) => nano(number),
        Limit::Points(points) => i128::from(points) * UNIT,
    }
}

/// How far a number is above another.
fn above(a: i128, b: i128) -> i128
    requires a { unsigned_abs a < 10 ^ 28 }
    requires b { unsigned_abs b < 10 ^ 28 }
    ensures value { result ≡ a -ℤ b }
    ensures bound { unsigned_abs result < 10 ^ 29 }
{
    a - b
}

/// Turns round how far a number is above another, or below it.
fn nearness(above: i128) -> i128
    requires { unsigned_abs above < 10 ^ 29 }
    ensures { result ≡ spec.minus (pos (unsigned_abs above)) }
{
    -above.abs()
}

/// The rank of a number that is to be near a limit.
fn nearest<'a>(is_reversed: bool, limit: i128, amount: i128) -> Rank<'a>
    requires limit { unsigned_abs limit < 10 ^ 28 }
    requires amount { unsigned_abs amount < 10 ^ 28 }
    ensures { plain_rank result ≡ spec.amount_rank is_reversed true (Some limit) amount }
{
    let above_limit = above(amount, limit);
    let last = if is_reversed {
        above_limit
    } else {
        above(limit, amount)
    };
    triple(0, nearness(above_limit), last)
}

/// The rank of a number with a limit that it should not pass.
fn within<'a>(is_reversed: bool, limit: i128, amount: i128) -> Rank<'a>
    requires { unsigned_abs amount < 10 ^ 28 }
    ensures { plain_rank result ≡ spec.amount_rank is_reversed false (Some limit) amount }
{
    if is_reversed {
        if amount < limit {
            triple(-1, amount, 0)
        } else {
            triple(0, -amount, 0)
        }
    } else if limit < amount {
        triple(0, -amount, 0)
    } else {
        triple(0, amount, 0)
    }
}

/// The rank of a number.
fn amount_rank<'a>(field: &SortField, amount: i128) -> Rank<'a>
    requires { unsigned_abs amount < 10 ^ 28 }
    ensures { plain_rank result
        ≡ spec.amount_rank field.now.is_reversed field.now.is_nearest
        (option_map spec.limit_amount (wanted_of field.now).limit) amount }
{
    match field.limit {
        None if field.is_reversed => triple(0, -amount, 0),
        None => triple(0, amount, 0),
        Some(limit) if field.is_nearest => {
            nearest(field.is_reversed, limit_amount(limit), amount)
        }
        Some(limit) => within(field.is_reversed, limit_amount(limit), amount),
    }
}

/// The rank of a value under a field.
pub(crate) fn rank_of<'a>(field: &SortField, value: Value<'a>) -> Rank<'a>
    requires { IsSmall value }
    ensures { plain_rank result ≡ spec.rank_of (wanted_of field.now) (plain_value value.entry) }
{
    match value {
        Value::Unknown => triple(-10, 0, 0),
        Value::Amount(amount) => amount_rank(field, amount),
        Value::Text(text) => Rank {
            group: 1,
            middle: Middle::Text(text),
            last: 0,
        },
    }
}
