//! Expressions: a path, operations and a date format.

ghost use Rattle.std.specs.Prelude.{◌≡◌, ℕ, List, drop, true, length, take};
ghost use Rattle.std.specs.Option.{option_map};
ghost use Rattle.text_base.specs.Size.{size_of};
ghost use Rattle.read_base.specs.Reads.{Gives, is_at};
ghost use Rattle.tpl_lang.specs.ExprReading as spec;

use crate::date_format::{DateFormat, DatePart, Directive};
use crate::expr::{Constant, Expr, Op, Operand, Operation};
use crate::listed::{Listed, all_of};
use crate::path_reading::{path, path_behind};
use crate::scan::{Class, begins, begins_word, behind, behind_first, run, run_len, some_run};
use crate::tpl_kind::{TplKind, fault};
use read_base::ReadError;
use std::alloc::Global;
use text_base::{Text, size_value};

/// The most decimals of a number.
const DECIMALS: usize = 9;

/// Another operation.
impl Listed for Operation {
    ghost use Rattle.tpl_lang.specs.ExprReading.{is_operator, operation_at};

    ghost test = { is_operator };

    ghost item = { operation_at };

    fn begins(text: &str) -> bool {
        op(text).is_some()
    }

    fn read(alloc: Global, text: &str) -> Result<(Operation, &str), ReadError<TplKind>> {
        operation(alloc, text)
    }
}

/// Another piece of a date format.
impl Listed for DatePart {
    ghost use Rattle.tpl_lang.specs.ExprReading.{in_date, date_part_at};

    ghost test = { in_date };

    ghost item = { date_part_at };

    fn begins(text: &str) -> bool {
        match text.as_bytes() {
            [first, ..] => !matches!(*first, b',' | b'&' | b'|' | b')'),
            [] => false,
        }
    }

    fn read(alloc: Global, text: &str) -> Result<(DatePart, &str), ReadError<TplKind>> {
        date_part(alloc, text)
    }
}

/// Another expression.
impl Listed for Expr {
    ghost use Rattle.std.specs.Prelude.{drop};
    ghost use Rattle.read_base.specs.Reads.{is_at};
    ghost use Rattle.tpl_lang.specs.ExprReading.{expr_at};

    ghost test = { is_at 44 };

    ghost item = { λ t. expr_at (drop 1 t) };

    fn begins(text: &str) -> bool {
        begins(b',', text)
    }

    fn read(alloc: Global, text: &str) -> Result<(Expr, &str), ReadError<TplKind>> {
        expr(alloc, behind_first(b',', text))
    }
}

/// Whether a key, or a further one, may go on there.
fn key_goes_on(text: &str) -> bool
    ensures { result ≡ spec.key_goes_on text.now }
{
    begins_word(text) || begins(b'.', text) || begins(b':', text)
}

/// Whether 1 to 9 digits stand at the front, behind which no key goes on.
fn has_decimals(text: &str) -> bool
    ensures { result ≡ spec.has_decimals text.now }
{
    let (digits, rest) = run(Class::Digit, text);
    1 <= digits.len() && digits.len() <= DECIMALS && !key_goes_on(rest)
}

/// How far a decimal goes behind its digits; 0 where a key may stand there.
fn point_len(text: &str) -> usize
    requires { is_at 46 text.now ≡ true }
    ensures { result ≡ spec.point_length text.now }
{
    let decimals = behind_first(b'.', text);
    if has_decimals(decimals) {
        1 + run_len(Class::Digit, decimals)
    } else {
        0
    }
}

/// The length of a number at the front; 0 where none stands there.
fn number_len(text: &str) -> usize
    ensures { result ≡ spec.number_length text.now }
{
    let (digits, rest) = run(Class::Digit, text);
    if digits.is_empty() || begins_word(rest) {
        return 0;
    }
    if !begins(b'.', rest) {
        return digits.len();
    }
    match point_len(rest) {
        0 => 0,
        point => digits.len() + point,
    }
}

/// What stands behind an operator.
#[tactic(auto, unfolding(crate::specs::ExprReading::operand_at))]
fn operand(alloc: Global, text: &str) -> Result<(Operand, &str), ReadError<TplKind>>
    ensures { Gives (λ x. (x.0, x.1.now)) result (spec.operand_at text.now) }
{
    let len = number_len(text);
    if len == 0 {
        let (word, rest) = some_run(Class::Word, text)?;
        let (path, rest) = path_behind(alloc, word, rest)?;
        return Ok((Operand::Path(path), rest));
    }
    let (number, rest) = text.split_at(len);
    let number = match size_value(number, 1000) {
        Some(num) => Some(Constant::new(num)),
        None => None,
    };
    Ok((Operand::Number(number), rest))
}

/// The operator that stands first.
fn op(text: &str) -> Option<Op>
    ensures { result ≡ spec.operator_of text.now }
{
    match text.as_bytes() {
        [b'+', ..] => Some(Op::Add),
        [b'-', ..] => Some(Op::Sub),
        [b'*', ..] => Some(Op::Mul),
        _ => None,
    }
}

/// An operation from its operator on.
#[tactic(auto, unfolding(crate::specs::ExprReading::operation_at))]
fn operation(alloc: Global, text: &str) -> Result<(Operation, &str), ReadError<TplKind>>
    ensures { Gives (λ x. (x.0, x.1.now)) result (spec.operation_at text.now) }
{
    let Some(op) = op(text) else {
        return Err(fault(TplKind::Syntax, text));
    };
    let (_, behind) = text.split_at(1);
    let (operand, rest) = operand(alloc, behind)?;
    Ok((Operation { op, operand }, rest))
}

/// The directive of a letter.
fn directive_of(letter: u8) -> Option<Directive>
    ensures { result ≡ spec.directive_of letter }
{
    match letter {
        b'Y' => Some(Directive::Year),
        b'm' => Some(Directive::Month),
        b'd' => Some(Directive::Day),
        b'H' => Some(Directive::Hour),
        b'M' => Some(Directive::Minute),
        b'S' => Some(Directive::Second),
        b'y' => Some(Directive::ShortYear),
        b'j' => Some(Directive::YearDay),
        b'%' => Some(Directive::Percent),
        _ => None,
    }
}

/// The directive of the letter that stands first.
fn first_directive(text: &str) -> Option<Directive>
    ensures { result ≡ spec.first_directive text.now }
{
    match text.as_bytes() {
        [first, ..] => directive_of(*first),
        [] => None,
    }
}

/// A directive behind its `%`; `percent` begins with that.
fn directive<'a>(percent: &'a str, text: &'a str) -> Result<(DatePart, &'a str), ReadError<TplKind>>
    ensures { Gives (λ x. (x.0, x.1.now)) result (spec.directive_at (length percent.now) text.now) }
{
    if let Some(directive) = first_directive(text) {
        let (_, rest) = text.split_at(1);
        return Ok((DatePart::Directive(directive), rest));
    }
    if text.is_empty() {
        return Err(fault(TplKind::Syntax, text));
    }
    Err(fault(TplKind::Directive, percent))
}

/// A piece of a date format.
#[tactic(auto, unfolding(crate::specs::ExprReading::date_part_at))]
fn date_part(alloc: Global, text: &str) -> Result<(DatePart, &str), ReadError<TplKind>>
    ensures { Gives (λ x. (x.0, x.1.now)) result (spec.date_part_at text.now) }
{
    if let Some(behind) = behind(b'%', text) {
        return directive(text, behind);
    }
    let (run, rest) = some_run(Class::DateText, text)?;
    Ok((DatePart::Text(Text::new(alloc, run)?), rest))
}

/// A date format, where one stands.
#[tactic(auto, unfolding(crate::specs::ExprReading::date_format_at))]
fn date_format(alloc: Global, text: &str) -> Result<(Option<DateFormat>, &str), ReadError<TplKind>>
    ensures { Gives (λ x. (x.0, x.1.now)) result (spec.date_format_at text.now) }
{
    let Some(behind) = behind(b'>', text) else {
        return Ok((None, text));
    };
    let (parts, rest) = all_of::<DatePart>(alloc, behind)?;
    Ok((Some(DateFormat::new(parts)), rest))
}

/// An expression.
#[tactic(auto, unfolding(crate::specs::ExprReading::expr_at))]
fn expr(alloc: Global, text: &str) -> Result<(Expr, &str), ReadError<TplKind>>
    ensures { Gives (λ x. (x.0, x.1.now)) result (spec.expr_at text.now) }
{
    let (path, rest) = path(alloc, text)?;
    let (operations, rest) = all_of::<Operation>(alloc, rest)?;
    let (date_format, rest) = date_format(alloc, rest)?;
    Ok((Expr::new(path, operations, date_format), rest))
}

/// Expressions parted by commas.
#[tactic(auto, unfolding(crate::specs::ExprReading::exprs_at))]
pub(crate) fn exprs(alloc: Global, text: &str) -> Result<(Vec<Expr>, &str), ReadError<TplKind>>
    ensures { Gives (λ x. (x.0.items, x.1.now)) result (spec.exprs_at text.now) }
{
    let (first, rest) = expr(alloc, text)?;
    let (mut exprs, rest) = all_of::<Expr>(alloc, rest)?;
    exprs.insert(0, first)?;
    Ok((exprs, rest))
}
