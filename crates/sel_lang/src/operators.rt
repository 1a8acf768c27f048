//! The operators of filters.

ghost use Rattle.std.specs.Prelude.{◌≡◌};
ghost use Rattle.std.specs.Option.{option_map};
ghost use Rattle.read_base.specs.Reads.{Gives};
ghost use Rattle.sel_lang.specs.Filters as spec;

use crate::filter::{NumOp, TextOp};
use crate::marks::{after, syntax};
use crate::sel_kind::SelKind;
use read_base::ReadError;
use text_base::without_first_spaces;

/// The first operator where `=` follows, else the second.
fn or_equal(with: NumOp, without: NumOp, text: &str) -> (NumOp, &str)
    ensures { (result.0, result.1.now) ≡ spec.or_equal with without text.now }
{
    match after(b'=', text) {
        Some(rest) => (with, rest),
        None => (without, text),
    }
}

/// An operator of numbers.
#[tactic(auto, unfolding(crate::specs::Filters::num_op_at))]
pub(crate) fn num_op(text: &str) -> Result<(NumOp, &str), ReadError<SelKind>>
    ensures { Gives (λ x. (x.0, x.1.now)) result (spec.num_op_at text.now) }
{
    if let Some(rest) = after(b'<', text) {
        return Ok(or_equal(NumOp::Le, NumOp::Lt, rest));
    }
    if let Some(rest) = after(b'>', text) {
        return Ok(or_equal(NumOp::Ge, NumOp::Gt, rest));
    }
    if let Some(rest) = after(b'=', text) {
        return Ok((NumOp::Eq, rest));
    }
    if let Some(rest) = after(b'!', text) {
        if let Some(rest) = after(b'=', rest) {
            return Ok((NumOp::Ne, rest));
        }
    }
    Err(syntax(text))
}

/// The mark that stands before `=` in an operator of texts, and what stands behind it.
#[tactic(auto, unfolding(crate::specs::Filters::op_mark))]
fn op_mark(text: &str) -> Option<(TextOp, &str)>
    ensures { option_map (λ x. (x.0, x.1.now)) result ≡ spec.op_mark text.now }
{
    if let Some(rest) = after(b'^', text) {
        Some((TextOp::Prefix, rest))
    } else if let Some(rest) = after(b'$', text) {
        Some((TextOp::Suffix, rest))
    } else if let Some(rest) = after(b'*', text) {
        Some((TextOp::Contains, rest))
    } else if let Some(rest) = after(b'~', text) {
        Some((TextOp::Matches, rest))
    } else {
        None
    }
}

/// An operator of texts without `!`.
#[tactic(auto, unfolding(crate::specs::Filters::plain_op))]
fn plain_op(text: &str) -> Option<(TextOp, &str)>
    ensures { option_map (λ x. (x.0, x.1.now)) result ≡ spec.plain_op text.now }
{
    if let Some(rest) = after(b'=', text) {
        return Some((TextOp::Eq, rest));
    }
    let (op, rest) = op_mark(text)?;
    let rest = after(b'=', rest)?;
    Some((op, rest))
}

/// An operator of texts, and whether `!` stands.
#[tactic(auto, unfolding(crate::specs::Filters::text_op_at))]
pub(crate) fn text_op(text: &str) -> Result<((TextOp, bool), &str), ReadError<SelKind>>
    ensures { Gives (λ x. (x.0, x.1.now)) result (spec.text_op_at text.now) }
{
    let (negated, rest) = match after(b'!', text) {
        Some(rest) => (true, rest),
        None => (false, text),
    };
    match plain_op(rest) {
        Some((op, rest)) => Ok(((op, negated), rest)),
        None => Err(syntax(text)),
    }
}

/// Whether `?` stands, and what stands behind it.
pub(crate) fn mark(text: &str) -> (bool, &str)
    ensures mark { result.0 ≡ spec.has_mark text.now }
    ensures rest { result.1.now ≡ spec.behind_mark text.now }
{
    match after(b'?', without_first_spaces(text)) {
        Some(rest) => (true, rest),
        None => (false, text),
    }
}
