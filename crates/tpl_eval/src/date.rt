//! A value as a date, by a format.
ghost use Rattle.std.specs.Prelude.{◌≡◌, ◌++◌, flat_map, IfOk, OnOk};
ghost use Rattle.std.specs.String.{string_bytes};
ghost use Rattle.info_tree.specs.Plain.{plain};
ghost use Rattle.tpl_eval.specs.Dates as spec;

use field_text::{Moment, moment_of, push_last_digits};
use info_tree::Tree;
use std::alloc::Global;
use text_base::{OutOfMemory, Text};
use tpl_lang::{DateFormat, DatePart, Directive};

/// Appends what a directive prints.
fn push_directive(
    out: &mut String,
    moment: &Moment,
    directive: Directive,
) -> Result<(), OutOfMemory>
    ensures { OnOk result (string_bytes out.new
        ≡ string_bytes out.old ++ spec.directive_text moment.now directive) }
{
    match directive {
        Directive::Year => push_last_digits(out, u128::from(moment.year), 4),
        Directive::Month => push_last_digits(out, u128::from(moment.month), 2),
        Directive::Day => push_last_digits(out, u128::from(moment.day), 2),
        Directive::Hour => push_last_digits(out, u128::from(moment.hour), 2),
        Directive::Minute => push_last_digits(out, u128::from(moment.minute), 2),
        Directive::Second => push_last_digits(out, u128::from(moment.second), 2),
        Directive::ShortYear => push_last_digits(out, u128::from(moment.year), 2),
        Directive::YearDay => push_last_digits(out, u128::from(moment.day_of_year), 3),
        Directive::Percent => {
            out.push_str("%")?;
            Ok(())
        }
    }
}

/// Appends what a part of a format prints.
fn push_part(out: &mut String, moment: &Moment, part: &DatePart) -> Result<(), OutOfMemory>
    ensures { OnOk result (string_bytes out.new
        ≡ string_bytes out.old ++ spec.date_part moment.now part.now) }
{
    match part {
        DatePart::Text(text) => {
            out.push_str(text.as_str())?;
            Ok(())
        }
        DatePart::Directive(directive) => push_directive(out, moment, *directive),
    }
}

/// A day and a time by a format.
fn shown(alloc: Global, format: &DateFormat, moment: &Moment) -> Result<Text, OutOfMemory>
    ensures { IfOk result (λ t. t ≡ flat_map (spec.date_part moment.now) format.now) }
{
    let mut out = String::new(alloc);
    for part in format.parts() {
        push_part(&mut out, moment, part)?;
    }
    Ok(Text::from(out))
}

/// The text of a value by a format: none where it stands for no day and time.
pub(crate) fn dated(
    alloc: Global,
    format: &DateFormat,
    value: &Tree,
) -> Result<Option<Text>, OutOfMemory>
    ensures { IfOk result (λ t. t ≡ spec.dated format.now (plain value.now)) }
{
    match moment_of(value) {
        Some(moment) => Ok(Some(shown(alloc, format, &moment)?)),
        None => Ok(None),
    }
}
