ghost use Rattle.std.specs.Prelude.{◌≡◌, IfOk};
ghost use Rattle.text_base.specs.Number.{number_of};
ghost use Rattle.sel_lang.specs.Plain.{plain_filter, num, text, test_op, test_value};
ghost use Rattle.sel_eval.specs.Holds.{passes};
ghost use Rattle.sel_eval.specs.Den.{meeting};

use crate::matcher::Matcher;
use crate::placed::Placed;
use sel_lang::{Filter, NumOp, TextTest};
use std::alloc::Global;
use std::cmp::Ordering;
use text_base::{Num, NumField, OutOfMemory, TextField, num_cmp};

/// Whether a number passes that compares so with the value.
fn passes(op: NumOp, order: Ordering) -> bool
    ensures { result ≡ passes op order }
{
    match op {
        NumOp::Lt => order.is_lt(),
        NumOp::Le => order.is_le(),
        NumOp::Gt => order.is_gt(),
        NumOp::Ge => order.is_ge(),
        NumOp::Eq => order.is_eq(),
        NumOp::Ne => order.is_ne(),
    }
}

/// The formats whose number in a field compares so with a value.
fn meeting_number<'a>(
    alloc: Global,
    field: NumField,
    op: NumOp,
    value: Num,
    unknown: bool,
    formats: &[Placed<'a>],
) -> Result<Vec<Placed<'a>>, OutOfMemory>
    ensures { IfOk result (λ v. v.items ≡ meeting
        (num (record { field = field; op = op; value = number_of value; unknown = unknown })) formats.entry.now) }
{
    let mut left = Vec::new(alloc);
    for placed in formats {
        let holds = match placed.format().number(field) {
            Some(number) => passes(op, num_cmp(number, value)),
            None => unknown,
        };
        if holds {
            left.push(placed.again())?;
        }
    }
    Ok(left)
}

/// The formats whose text in a field passes a test, or does not.
fn meeting_text<'a>(
    alloc: Global,
    field: TextField,
    test: &TextTest,
    not: bool,
    unknown: bool,
    formats: &[Placed<'a>],
) -> Result<Vec<Placed<'a>>, OutOfMemory>
    ensures { IfOk result (λ v. v.items ≡ meeting
        (text (record { field = field; op = test_op test.now; negated = not; value = test_value test.now; unknown = unknown }))
        formats.entry.now) }
{
    let mut matcher = Matcher::new(alloc, test)?;
    let mut left = Vec::new(alloc);
    for placed in formats {
        let holds = match placed.format().text(field) {
            Some(text) => matcher.fits(text) != not,
            None => unknown,
        };
        if holds {
            left.push(placed.again())?;
        }
    }
    Ok(left)
}

/// The formats that meet a filter.
pub(crate) fn meeting<'a>(
    alloc: Global,
    filter: &Filter,
    formats: &[Placed<'a>],
) -> Result<Vec<Placed<'a>>, OutOfMemory>
    ensures { IfOk result (λ v. v.items ≡ meeting (plain_filter filter.now) formats.entry.now) }
{
    match filter {
        Filter::Num {
            field,
            op,
            value,
            unknown,
        } => meeting_number(alloc, *field, *op, *value, *unknown, formats),
        Filter::Text {
            field,
            test,
            not,
            unknown,
        } => meeting_text(alloc, *field, test, *not, *unknown, formats),
    }
}
