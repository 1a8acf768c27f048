//! Filling a template.
ghost use Rattle.std.specs.Prelude.{◌≡◌, ◌++◌, Err, Some, None, IfOk, OnOk};
ghost use Rattle.std.specs.Option.{option_map};
ghost use Rattle.std.specs.String.{string_bytes};
ghost use Rattle.tpl_eval.specs.Field as spec;
ghost use Rattle.tpl_eval.specs.Fill.{fill_of, extended};

use crate::field::push_field;
use crate::fill_fault::FillFault;
use crate::marks::{Clean, Marks};
use info_item::Values;
use std::alloc::Global;
use text_base::Text;
use tpl_lang::{Part, Template};

/// The most bytes that a text, or the text of a field, may have.
pub(crate) const MOST_BYTES: usize = 16_777_216;

/// Appends the text of a part.
fn push_part<V: Values>(
    alloc: Global,
    out: &mut String,
    part: &Part,
    values: &V,
    marks: &Marks,
    clean: Clean,
) -> Result<(), FillFault>
    ensures text { OnOk result (option_map (λ s. string_bytes out.old ++ s) (spec.part_text (V.tree values.now) marks.now.na clean part.now)
        ≡ Some (string_bytes out.new)) }
    ensures long { result ≡ Err FillFault.TooLong → spec.part_text (V.tree values.now) marks.now.na clean part.now ≡ None }
{
    match part {
        Part::Literal(text) => {
            out.push_str(text.as_str())?;
            Ok(())
        }
        Part::Field(field) => push_field(alloc, out, field, values, marks, clean),
    }
}

/// Appends the text of a part, where the whole does not get too long.
fn extend<V: Values>(
    alloc: Global,
    out: &mut String,
    part: &Part,
    values: &V,
    marks: &Marks,
    clean: Clean,
) -> Result<(), FillFault>
    ensures text { OnOk result (extended (string_bytes out.old) (spec.part_text (V.tree values.now) marks.now.na clean part.now)
        ≡ Some (string_bytes out.new)) }
    ensures long { result ≡ Err FillFault.TooLong →
        extended (string_bytes out.old) (spec.part_text (V.tree values.now) marks.now.na clean part.now) ≡ None }
{
    push_part(alloc, out, part, values, marks, clean)?;
    if out.len() > MOST_BYTES {
        return Err(FillFault::TooLong);
    }
    Ok(())
}

/// The text that a template is filled to, from a tree or a view.
pub fn fill<V: Values>(
    alloc: Global,
    template: &Template,
    values: &V,
    marks: &Marks,
    clean: Clean,
) -> Result<Text, FillFault>
    ensures text { IfOk result (λ t. fill_of (V.tree values.now) marks.now.na clean template.now ≡ Some t) }
    ensures long { result ≡ Err FillFault.TooLong → fill_of (V.tree values.now) marks.now.na clean template.now ≡ None }
{
    let mut out = String::new(alloc);
    for part in template.parts() {
        extend(alloc, &mut out, part, values, marks, clean)?;
    }
    Ok(Text::from(out))
}
