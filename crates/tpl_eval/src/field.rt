//! The text of a field.
ghost use Rattle.std.specs.Prelude.{◌≡◌, ◌++◌, if◌then◌else◌, Err, Some, None, IfOk, OnOk};
ghost use Rattle.std.specs.Option.{option_map};
ghost use Rattle.std.specs.String.{string_bytes};
ghost use Rattle.text_base.specs.Number.{number_of};
ghost use Rattle.info_tree.specs.Plain.{plain};
ghost use Rattle.name_text.specs.Clean.{cleaned as clean_of};
ghost use Rattle.tpl_eval.specs.Convert.{converted};
ghost use Rattle.tpl_eval.specs.Field as spec;

use crate::convert::converted;
use crate::fill_fault::FillFault;
use crate::filling::MOST_BYTES;
use crate::limit::limit_of;
use crate::marks::{Clean, Marks};
use crate::replacement::replaced;
use crate::value::first_value;
use field_text::{IntegerForm, Radix, Sign, integer_text};
use info_item::Values;
use info_tree::Tree;
use name_text::clean;
use std::alloc::Global;
use text_base::{Num, OutOfMemory, Text};
use tpl_lang::{Conv, Field, Replacement};

/// How a count is printed: with at least five digits.
const COUNT: IntegerForm = IntegerForm {
    radix: Radix::Decimal,
    sign: Sign::Minus,
    prefixed: false,
    least: 5,
    width: 0,
};

/// A count with at least five digits, where the value is whole and not negative.
fn counted(alloc: Global, value: &Tree) -> Result<Option<Text>, OutOfMemory>
    ensures { IfOk result (λ t. t ≡ spec.counted (plain value.now)) }
{
    match value {
        Tree::Num(num) => counted_number(alloc, *num),
        _ => Ok(None),
    }
}

fn counted_number(alloc: Global, num: Num) -> Result<Option<Text>, OutOfMemory>
    ensures { IfOk result (λ t. t ≡ spec.counted_number (number_of num)) }
{
    match num {
        Num::Int(count) => {
            if count < 0 {
                return Ok(None);
            }
            Ok(Some(integer_text(alloc, COUNT, num)?))
        }
        Num::Dec(_) => Ok(None),
    }
}

/// Whether a field is exactly `%(autonumber)s`.
fn is_count(field: &Field) -> bool
    ensures { result ≡ spec.is_count field.now }
{
    match field.exprs() {
        [expr] => field.is_bare() && expr.path().word() == "autonumber",
        _ => false,
    }
}

/// The text of a value by a field's conversion, before it is cleaned.
fn converted_by(alloc: Global, field: &Field, value: &Tree) -> Result<Option<Text>, OutOfMemory>
    ensures { IfOk result (λ t. t ≡ spec.converted_by field.now (plain value.now)) }
{
    match count_text(alloc, field, value)? {
        Some(text) => Ok(Some(text)),
        None => printed(alloc, field, value),
    }
}

/// The text of a count, where the field is exactly `%(autonumber)s`.
fn count_text(alloc: Global, field: &Field, value: &Tree) -> Result<Option<Text>, OutOfMemory>
    ensures { IfOk result (λ t. t ≡ (if spec.is_count field.now then spec.counted (plain value.now) else None)) }
{
    if is_count(field) {
        counted(alloc, value)
    } else {
        Ok(None)
    }
}

/// The text of a value, or of what replaces it, by a field's conversion.
fn printed(alloc: Global, field: &Field, value: &Tree) -> Result<Option<Text>, OutOfMemory>
    ensures { IfOk result (λ t. t ≡ converted (field.now.conv) (spec.replaced field.now.replacement (plain value.now))) }
{
    match field.replacement() {
        Some(replacement) => replacement_by(alloc, field.conv(), replacement, value),
        None => converted(alloc, field.conv(), value),
    }
}

/// The text of what replaces a value, by a conversion. No more of it is built than is kept.
fn replacement_by(
    alloc: Global,
    conv: Conv,
    replacement: &Replacement,
    value: &Tree,
) -> Result<Option<Text>, OutOfMemory>
    ensures { IfOk result (λ t. t ≡ converted conv (spec.replaced (Some replacement.now) (plain value.now))) }
{
    let text = replaced(alloc, limit_of(conv), replacement, value)?;
    converted(alloc, conv, &text)
}

/// The text of a field's value, before it is cleaned: none where there is no value, or it is refused.
fn value_text<V: Values>(
    alloc: Global,
    values: &V,
    field: &Field,
) -> Result<Option<Text>, OutOfMemory>
    ensures { IfOk result (λ t. t ≡ spec.value_text (V.tree values.now) field.now) }
{
    match first_value(alloc, values, field.exprs())? {
        Some(found) => converted_by(alloc, field, found.tree()),
        None => Ok(None),
    }
}

/// Appends a text, cleaned.
fn push_cleaned(
    alloc: Global,
    out: &mut String,
    text: &str,
    clean: Clean,
) -> Result<(), OutOfMemory>
    ensures { OnOk result (string_bytes out.new ≡ string_bytes out.old ++ spec.cleaned clean text.now) }
{
    match clean {
        Clean::Plain => {
            out.push_str(text)?;
            Ok(())
        }
        Clean::Names => push_clean(alloc, out, text, false),
        Clean::Restricted => push_clean(alloc, out, text, true),
    }
}

fn push_clean(
    alloc: Global,
    out: &mut String,
    text: &str,
    restricted: bool,
) -> Result<(), OutOfMemory>
    ensures { OnOk result (string_bytes out.new ≡ string_bytes out.old ++ clean_of restricted text.now) }
{
    let cleaned = clean(alloc, text, restricted)?;
    out.push_str(cleaned.as_str())?;
    Ok(())
}

/// Appends a text of a value, cleaned, where it is not too long before that.
fn push_value(alloc: Global, out: &mut String, text: &str, clean: Clean) -> Result<(), FillFault>
    ensures text { OnOk result (option_map (λ s. string_bytes out.old ++ s) (spec.value_field clean text.now)
        ≡ Some (string_bytes out.new)) }
    ensures long { result ≡ Err FillFault.TooLong → spec.value_field clean text.now ≡ None }
{
    if text.len() > MOST_BYTES {
        return Err(FillFault::TooLong);
    }
    push_cleaned(alloc, out, text, clean)?;
    Ok(())
}

/// Appends a field's default, or else the placeholder, as it is, where it is not too long.
fn push_default(out: &mut String, default: Option<&str>, marks: &Marks) -> Result<(), FillFault>
    ensures text { OnOk result (option_map (λ s. string_bytes out.old ++ s) (spec.default_field marks.now.na (option_map (λ d. d.now) default.entry))
        ≡ Some (string_bytes out.new)) }
    ensures long { result ≡ Err FillFault.TooLong → spec.default_field marks.now.na (option_map (λ d. d.now) default.entry) ≡ None }
{
    let text = default.unwrap_or(marks.na.as_str());
    if text.len() > MOST_BYTES {
        return Err(FillFault::TooLong);
    }
    out.push_str(text)?;
    Ok(())
}

/// Appends the text of a field: its value's, cleaned, or else its default, or else the placeholder.
pub(crate) fn push_field<V: Values>(
    alloc: Global,
    out: &mut String,
    field: &Field,
    values: &V,
    marks: &Marks,
    clean: Clean,
) -> Result<(), FillFault>
    ensures text { OnOk result (option_map (λ s. string_bytes out.old ++ s) (spec.field_text (V.tree values.now) marks.now.na clean field.now)
        ≡ Some (string_bytes out.new)) }
    ensures long { result ≡ Err FillFault.TooLong → spec.field_text (V.tree values.now) marks.now.na clean field.now ≡ None }
{
    match value_text(alloc, values, field)? {
        Some(text) => push_value(alloc, out, text.as_str(), clean),
        None => push_default(out, field.default(), marks),
    }
}
