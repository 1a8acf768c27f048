//! What a format says in a field that it is sorted by.

ghost use Rattle.std.specs.Prelude.{◌≡◌, ◌<◌, ◌^◌, ℤ, pos, unsigned_abs, IfSome};
ghost use Rattle.std.specs.Option.{option_map, option_or};
ghost use Rattle.fmt_sort.specs.Values as spec;
ghost use Rattle.fmt_sort.specs.ValueParts.{plain_value, IsSmall};

use crate::kind::Kind;
use crate::row::{Row, is_named};
use info_item::Format;
use text_base::{NumField, TextField, nano};

/// The thousand-millionths in 1.
pub(crate) const UNIT: i128 = 1_000_000_000;

/// A value of a format.
#[derive(Clone, Copy, Debug)]
pub(crate) enum Value<'a> {
    Unknown,
    /// A count of thousand-millionths.
    Amount(i128),
    Text(&'a str),
}

/// A number of a format, by its count of thousand-millionths.
fn amount_of(format: &Format<'_>, field: NumField) -> Option<i128>
    ensures value { result ≡ spec.amount_of format.now field }
    ensures bound { IfSome result (λ n. unsigned_abs n < 10 ^ 28) }
{
    match format.number(field) {
        Some(number) => Some(nano(number)),
        None => None,
    }
}

/// The first of two numbers that is known.
fn either(format: &Format<'_>, first: NumField, second: NumField) -> Option<i128>
    ensures value { result
        ≡ option_or (spec.amount_of format.now first) (spec.amount_of format.now second) }
    ensures bound { IfSome result (λ n. unsigned_abs n < 10 ^ 28) }
{
    match amount_of(format, first) {
        Some(amount) => Some(amount),
        None => amount_of(format, second),
    }
}

/// A number that may be unknown.
fn known<'a>(amount: Option<i128>) -> Value<'a>
    requires { IfSome amount (λ n. unsigned_abs n < 10 ^ 28) }
    ensures value { plain_value result ≡ spec.known amount }
    ensures bound { IsSmall result }
{
    match amount {
        Some(amount) => Value::Amount(amount),
        None => Value::Unknown,
    }
}

/// 1 with a stream, else 0.
fn flag<'a>(there: bool) -> Value<'a>
    ensures value { plain_value result ≡ spec.flag there }
    ensures bound { IsSmall result }
{
    Value::Amount(if there { UNIT } else { 0 })
}

/// A side of the frame, where it is known and not 0.
fn side(format: &Format<'_>, field: NumField) -> Option<i128>
    ensures value { result ≡ spec.side (spec.amount_of format.now field) }
    ensures bound { IfSome result (λ n. unsigned_abs n < 10 ^ 28) }
{
    match amount_of(format, field) {
        Some(0) | None => None,
        known => known,
    }
}

/// The smaller of height and width, or the one that there is.
fn frame(format: &Format<'_>) -> Option<i128>
    ensures value { result ≡ spec.smaller (spec.side (spec.amount_of format.now NumField.Height))
        (spec.side (spec.amount_of format.now NumField.Width)) }
    ensures bound { IfSome result (λ n. unsigned_abs n < 10 ^ 28) }
{
    let width = side(format, NumField::Width);
    match (side(format, NumField::Height), width) {
        (Some(height), Some(width)) => Some(height.min(width)),
        (Some(height), None) => Some(height),
        (None, width) => width,
    }
}

/// The bit rate of all, else of video, else of audio.
fn rate(format: &Format<'_>) -> Option<i128>
    ensures value { result ≡ option_or (spec.amount_of format.now NumField.Tbr)
        (option_or (spec.amount_of format.now NumField.Vbr)
        (spec.amount_of format.now NumField.Abr)) }
    ensures bound { IfSome result (λ n. unsigned_abs n < 10 ^ 28) }
{
    match amount_of(format, NumField::Tbr) {
        Some(amount) => Some(amount),
        None => either(format, NumField::Vbr, NumField::Abr),
    }
}

/// A codec's text, which is unknown where it is `none`.
fn codec(text: Option<&str>) -> Option<&str>
    ensures { option_map (λ t. t.now) result ≡ spec.codec (option_map (λ t. t.now) text.entry) }
{
    match text {
        Some(name) if !is_named(name.as_bytes(), "none".as_bytes()) => Some(name),
        _ => None,
    }
}

/// The text of a format that stands in a row.
fn text_in<'a>(format: &'a Format<'_>, row: Row) -> Option<&'a str>
    ensures { option_map (λ t. t.now) result ≡ spec.text_in format.entry.now row }
{
    match row {
        Row::Protocols => format.text(TextField::Protocol),
        Row::VideoCodecs => codec(format.text(TextField::Vcodec)),
        Row::AudioCodecs => codec(format.text(TextField::Acodec)),
        Row::VideoExts if format.has_video() => Some(format.ext()),
        Row::AudioExts if !format.has_video() => Some(format.ext()),
        Row::VideoExts | Row::AudioExts => None,
        Row::Ranges => format.text(TextField::DynamicRange),
    }
}

/// The points of a text that may be unknown.
fn points<'a>(row: Row, free: bool, text: Option<&str>) -> Value<'a>
    ensures value { plain_value result
        ≡ spec.points row free (option_map (λ t. t.now) text.entry) }
    ensures bound { IsSmall result }
{
    match text {
        Some(text) => Value::Amount(i128::from(row.points(free, text)) * UNIT),
        None => Value::Unknown,
    }
}

/// The value of a format by a field's kind.
pub(crate) fn value_of<'a>(free: bool, format: &'a Format<'_>, kind: Kind) -> Value<'a>
    ensures value { plain_value result ≡ spec.value_of free format.entry.now kind }
    ensures bound { IsSmall result }
{
    match kind {
        Kind::VideoStream => flag(format.has_video()),
        Kind::AudioStream => flag(format.has_audio()),
        Kind::Preferred(field) => Value::Amount(amount_of(format, field).unwrap_or(-UNIT)),
        Kind::Measured(field) => known(amount_of(format, field)),
        Kind::FileSize => known(either(format, NumField::Filesize, NumField::FilesizeApprox)),
        Kind::Frame => known(frame(format)),
        Kind::Rate => known(rate(format)),
        Kind::Listed(row) => points(row, free, text_in(format, row)),
        Kind::FormatId => Value::Text(format.id()),
    }
}
