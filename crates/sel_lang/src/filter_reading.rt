//! Filters, read behind their bracket.

ghost use Rattle.std.specs.Prelude.{◌≡◌};
ghost use Rattle.read_base.specs.Reads.{Gives};
ghost use Rattle.sel_lang.specs.Plain.{plain_filter};
ghost use Rattle.sel_lang.specs.Filters as spec;

use crate::field_name::FieldName;
use crate::filter::Filter;
use crate::marks::{behind, field_word};
use crate::operators::{mark, num_op, text_op};
use crate::sel_kind::SelKind;
use crate::values::{num_value, tested};
use read_base::ReadError;
use std::alloc::Global;
use text_base::{NumField, TextField, without_first_spaces};

/// The field of a filter.
#[tactic(auto, unfolding(crate::specs::Filters::field_at))]
fn field(text: &str) -> Result<(FieldName, &str), ReadError<SelKind>>
    ensures { Gives (λ x. (x.0, x.1.now)) result (spec.field_at text.now) }
{
    let (word, rest) = field_word(text)?;
    match FieldName::named(word) {
        Some(field) => Ok((field, rest)),
        None => Err(ReadError::Fault {
            kind: SelKind::Field,
            left: text.len(),
        }),
    }
}

/// What stands behind a field of numbers.
#[tactic(auto, unfolding(crate::specs::Filters::num_filter_at, crate::specs::Filters::marked_at))]
fn num_filter(field: NumField, text: &str) -> Result<(Filter, &str), ReadError<SelKind>>
    ensures { Gives (λ x. (plain_filter x.0, x.1.now)) result (spec.num_filter_at field text.now) }
{
    let (op, rest) = num_op(without_first_spaces(text))?;
    let (unknown, rest) = mark(rest);
    let (value, rest) = num_value(without_first_spaces(rest))?;
    let rest = behind(b']', without_first_spaces(rest))?;
    Ok((
        Filter::Num {
            field,
            op,
            value,
            unknown,
        },
        rest,
    ))
}

/// What stands behind a field of texts.
#[tactic(auto, unfolding(crate::specs::Filters::text_filter_at, crate::specs::Filters::marked_at))]
fn text_filter(
    alloc: Global,
    field: TextField,
    text: &str,
) -> Result<(Filter, &str), ReadError<SelKind>>
    ensures { Gives (λ x. (plain_filter x.0, x.1.now)) result (spec.text_filter_at field text.now) }
{
    let ((op, not), rest) = text_op(without_first_spaces(text))?;
    let (unknown, rest) = mark(rest);
    let (test, rest) = tested(alloc, op, without_first_spaces(rest))?;
    let rest = behind(b']', without_first_spaces(rest))?;
    Ok((
        Filter::Text {
            field,
            test,
            not,
            unknown,
        },
        rest,
    ))
}

/// A filter behind its bracket.
#[tactic(auto, unfolding(crate::specs::Filters::filter_at))]
pub(crate) fn filter(alloc: Global, text: &str) -> Result<(Filter, &str), ReadError<SelKind>>
    ensures { Gives (λ x. (plain_filter x.0, x.1.now)) result (spec.filter_at text.now) }
{
    let (field, rest) = field(without_first_spaces(text))?;
    match field {
        FieldName::Num(field) => num_filter(field, rest),
        FieldName::Text(field) => text_filter(alloc, field, rest),
    }
}
