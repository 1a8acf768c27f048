//! The value of an expression, and the first that a field has.
ghost use Rattle.std.specs.Prelude.{◌≡◌, IfOk};
ghost use Rattle.std.specs.Option.{option_map, option_and_then};
ghost use Rattle.text_base.specs.Number.{number_of};
ghost use Rattle.tpl_eval.specs.Value as spec;
ghost use Rattle.info_item.specs.Found.{tree_of};

use crate::date::dated;
use crate::path::at_path;
use info_item::{Found, Values};
use info_tree::Tree;
use std::alloc::Global;
use text_base::{Num, OutOfMemory, num_add, num_mul, num_sub};
use tpl_lang::{DateFormat, Expr, Op, Operand, Operation};

/// The number that an operand is.
fn operand_of<V: Values>(
    alloc: Global,
    values: &V,
    operand: &Operand,
) -> Result<Option<Num>, OutOfMemory>
    ensures { IfOk result (λ num. option_map number_of num ≡ spec.operand_of (V.tree values.now) operand.now) }
{
    match operand {
        Operand::Number(Some(constant)) => Ok(Some(constant.num())),
        Operand::Number(None) => Ok(None),
        Operand::Path(path) => match at_path(alloc, values, path)? {
            Some(found) => Ok(found.tree().as_number()),
            None => Ok(None),
        },
    }
}

/// An operator between two numbers, where the result is in range.
fn applied(op: Op, left: Num, right: Num) -> Option<Num>
    ensures { option_map number_of result ≡ spec.applied op (number_of left) (number_of right) }
{
    match op {
        Op::Add => num_add(left, right),
        Op::Sub => num_sub(left, right),
        Op::Mul => num_mul(left, right),
    }
}

/// One operation on a number.
fn operated<V: Values>(
    alloc: Global,
    values: &V,
    left: Num,
    operation: &Operation,
) -> Result<Option<Num>, OutOfMemory>
    ensures { IfOk result (λ num. option_map number_of num
        ≡ spec.operated (V.tree values.now) (number_of left) operation.now) }
{
    match operand_of(alloc, values, &operation.operand)? {
        Some(right) => Ok(applied(operation.op, left, right)),
        None => Ok(None),
    }
}

/// Operations on a number, from the left.
fn calculated<V: Values>(
    alloc: Global,
    values: &V,
    first: Num,
    operations: &[Operation],
) -> Result<Option<Num>, OutOfMemory>
    ensures { IfOk result (λ num. option_map number_of num
        ≡ spec.calculated (V.tree values.now) operations.now (number_of first)) }
{
    let mut left = first;
    for operation in operations {
        let Some(num) = operated(alloc, values, left, operation)? else {
            return Ok(None);
        };
        left = num;
    }
    Ok(Some(left))
}

/// A value behind its operations: one that has any is a number.
fn behind_operations<'a, V: Values>(
    alloc: Global,
    values: &V,
    found: Found<'a>,
    operations: &[Operation],
) -> Result<Option<Found<'a>>, OutOfMemory>
    ensures { IfOk result (λ f. option_map tree_of f
        ≡ spec.behind_operations (V.tree values.now) operations.now (tree_of found.entry)) }
{
    if operations.is_empty() {
        return Ok(Some(found));
    }
    let Some(first) = found.tree().as_number() else {
        return Ok(None);
    };
    match calculated(alloc, values, first, operations)? {
        Some(num) => Ok(Some(Found::Made(Tree::Num(num)))),
        None => Ok(None),
    }
}

/// A value, or its date where a format asks for that.
fn dated_by<'a>(
    alloc: Global,
    found: Found<'a>,
    format: Option<&DateFormat>,
) -> Result<Option<Found<'a>>, OutOfMemory>
    ensures { IfOk result (λ f. option_map tree_of f
        ≡ spec.dated_by (option_map (λ d. d.now) format.entry) (tree_of found.entry)) }
{
    let Some(format) = format else {
        return Ok(Some(found));
    };
    match dated(alloc, format, found.tree())? {
        Some(text) => Ok(Some(Found::Made(Tree::Text(text)))),
        None => Ok(None),
    }
}

/// The value of an expression.
fn value_of<'a, V: Values>(
    alloc: Global,
    values: &'a V,
    expr: &Expr,
) -> Result<Option<Found<'a>>, OutOfMemory>
    ensures { IfOk result (λ f. option_map tree_of f ≡ spec.value_of (V.tree values.now) expr.now) }
{
    let Some(found) = at_path(alloc, values, expr.path())? else {
        return Ok(None);
    };
    let Some(found) = behind_operations(alloc, values, found, expr.operations())? else {
        return Ok(None);
    };
    dated_by(alloc, found, expr.date_format())
}

/// A value that is not null.
fn not_null<'a>(found: Option<Found<'a>>) -> Option<Found<'a>>
    ensures { option_map tree_of result ≡ option_and_then spec.not_null (option_map tree_of found.entry) }
{
    let Some(found) = found else {
        return None;
    };
    match found.tree() {
        Tree::Null => None,
        _ => Some(found),
    }
}

/// The first value that is neither absent nor null.
pub(crate) fn first_value<'a, V: Values>(
    alloc: Global,
    values: &'a V,
    exprs: &[Expr],
) -> Result<Option<Found<'a>>, OutOfMemory>
    ensures { IfOk result (λ f. option_map tree_of f ≡ spec.first_value (V.tree values.now) exprs.now) }
{
    for expr in exprs {
        if let Some(found) = not_null(value_of(alloc, values, expr)?) {
            return Ok(Some(found));
        }
    }
    Ok(None)
}
