//! The day and the time of day that a text or a number stands for.
ghost use Rattle.std.specs.Prelude.{◌≡◌, ◌<◌, ◌≤◌, ◌^◌, ◌≤ℤ◌, pos, neg_ℤ, unsigned_abs, true, length};
ghost use Rattle.std.specs.Char.{is_ascii_digit};
ghost use Rattle.std.specs.Int.{int_rem_euclid};
ghost use Rattle.std.specs.List.{list_all};
ghost use Rattle.jiff_core.specs.Date.{epoch_day};
ghost use Rattle.text_base.specs.Number.{number_of};
ghost use Rattle.text_base.specs.Spelled.{AreDigits};
ghost use Rattle.text_base.specs.Value.{digits_value};
ghost use Rattle.field_text.specs.Dates as spec;
ghost use Rattle.field_text.specs.Moments.{on_date};

use jiff::ToSpan;
use jiff::civil::{Date, date};
use text_base::{Num, nano};

/// A day and a time of day in UTC, in the years 1 to 9999.
#[derive(Clone, Copy, Debug, PartialEq, Eq)]
pub struct Moment {
    pub year: u16,
    /// From 1.
    pub month: u8,
    /// From 1.
    pub day: u8,
    /// From 1.
    pub day_of_year: u16,
    pub hour: u8,
    pub minute: u8,
    pub second: u8,
}

/// The thousand-millionths in 1.
const UNIT: i128 = 1_000_000_000;

/// The seconds of a day.
const DAY: i128 = 86_400;

/// 1 January of the year 1, counted in days from 1970 on.
const FIRST_DAY: i128 = -719_162;

/// 31 December 9999.
const LAST_DAY: i128 = 2_932_896;

/// The moment of a number of seconds from 1970 on, rounded down.
pub fn moment_of_number(num: Num) -> Option<Moment>
    ensures { result ≡ spec.moment_of_number (number_of num) }
{
    moment_of_seconds(nano(num).div_euclid(UNIT))
}

/// The moment of a second that is counted from 1970 on.
fn moment_of_seconds(seconds: i128) -> Option<Moment>
    ensures { result ≡ spec.moment_of_seconds seconds }
{
    let day = day_of(seconds);
    if day < FIRST_DAY || day > LAST_DAY {
        return None;
    }
    Some(on_date(date_of(day), second_of(seconds)))
}

/// The day of a second that is counted from 1970 on.
fn day_of(seconds: i128) -> i128
    ensures { result ≡ spec.day_of seconds }
{
    seconds.div_euclid(DAY)
}

/// The second of its day.
fn second_of(seconds: i128) -> u32
    ensures value { result ≡ unsigned_abs (int_rem_euclid seconds (pos 86400)) }
    ensures below { result < 86400 }
{
    seconds.rem_euclid(DAY) as u32
}

/// The date of a day that is counted from 1970 on.
fn date_of(day: i128) -> Date
    requires low { neg_ℤ (pos 719162) ≤ℤ day }
    requires high { day ≤ℤ pos 2932896 }
    ensures day { epoch_day result ≡ day }
    ensures year { pos 1 ≤ℤ result.year }
{
    match date(1970, 1, 1).checked_add((day as i64).days()) {
        Ok(date) => date,
        Err(_) => unreachable!(),
    }
}

/// A second of a date's day.
fn on_date(date: Date, second: u32) -> Moment
    requires year { pos 1 ≤ℤ date.year }
    requires second { second < 86400 }
    ensures { result ≡ on_date date second }
{
    Moment {
        year: date.year() as u16,
        month: date.month() as u8,
        day: date.day() as u8,
        day_of_year: date.day_of_year() as u16,
        hour: (second / 3600) as u8,
        minute: (second / 60 % 60) as u8,
        second: (second % 60) as u8,
    }
}

/// The moment of a text of eight digits: midnight of a day.
pub fn moment_of_text(text: &str) -> Option<Moment>
    ensures { result ≡ spec.moment_of_text text.now }
{
    let digits = text.as_bytes();
    if digits.len() == 8 && are_digits(digits) {
        moment_of_digits(digits)
    } else {
        None
    }
}

fn are_digits(bytes: &[u8]) -> bool
    ensures value { result ≡ list_all is_ascii_digit bytes.now }
    ensures each { result ≡ true → AreDigits bytes.now }
{
    bytes.iter().all(|byte| byte.is_ascii_digit())
}

/// Midnight of a day: four digits of the year, two of the month, two of the day.
#[tactic(auto, unfolding(crate::specs::Dates::moment_of_digits))]
fn moment_of_digits(digits: &[u8]) -> Option<Moment>
    requires long { length digits.now ≡ 8 }
    requires digits { AreDigits digits.now }
    ensures { result ≡ spec.moment_of_digits digits.now }
{
    let year = value_of(&digits[..4]);
    let month = value_of(&digits[4..6]);
    let day = value_of(&digits[6..]);
    midnight(year, month, day)
}

/// The first second of a day, where the calendar has it.
fn midnight(year: u16, month: u16, day: u16) -> Option<Moment>
    requires year { year < 10000 }
    requires month { month < 100 }
    requires day { day < 100 }
    ensures { result ≡ spec.midnight_of year month day }
{
    if year == 0 {
        return None;
    }
    match Date::new(year as i16, month as i8, day as i8) {
        Ok(date) => Some(on_date(date, 0)),
        Err(_) => None,
    }
}

/// What at most four digits count.
fn value_of(digits: &[u8]) -> u16
    requires few { length digits.now ≤ 4 }
    requires digits { AreDigits digits.now }
    ensures value { result ≡ digits_value digits.now }
    ensures below { result < 10 ^ length digits.now }
{
    let mut value = 0;
    for byte in digits {
        value = 10 * value + u16::from(*byte - b'0');
    }
    value
}
