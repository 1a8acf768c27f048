//! Marks and runs at the front of a text.

ghost use Rattle.std.specs.Prelude.{◌≡◌, ◌<◌, ◌≤◌, length, drop, true, false, IfSome, IfNone};
ghost use Rattle.std.specs.List.{prefix_len};
ghost use Rattle.read_base.specs.Reads.{Gives, skip, is_at, mark_at, run_at};
ghost use Rattle.sel_lang.specs.declared.sel_kind.SelKind.TheVariants.{Syntax};
ghost use Rattle.sel_lang.specs.Marks.{is_field_byte, is_name_byte, is_value_byte};
ghost use Rattle.read_base.specs.declared.read_error.ReadError.TheVariants as errors;

use crate::sel_kind::SelKind;
use read_base::ReadError;
use text_base::without_first_spaces;

/// A token that is not allowed at the front of a text.
pub(crate) fn syntax(text: &str) -> ReadError<SelKind>
    ensures { result ≡ errors.Fault Syntax (length text.now) }
{
    ReadError::Fault {
        kind: SelKind::Syntax,
        left: text.len(),
    }
}

/// Whether a mark stands first.
pub(crate) fn begins(mark: u8, text: &str) -> bool
    ensures { result ≡ is_at mark text.now }
{
    match text.as_bytes() {
        [first, ..] => *first == mark,
        [] => false,
    }
}

/// What stands behind a mark.
#[tactic(auto, using(crate::proofs::CutLemmas::mark_lead, crate::proofs::CutLemmas::mark_within))]
pub(crate) fn past(mark: u8, text: &str) -> &str
    requires ascii { mark < 128 }
    requires here { is_at mark text.now ≡ true }
    ensures { result.now ≡ drop 1 text.now }
{
    &text[1..]
}

/// What stands behind a mark, where it stands first.
pub(crate) fn after(mark: u8, text: &str) -> Option<&str>
    requires { mark < 128 }
    ensures some { IfSome result (λ r. (is_at mark text.now ≡ true) × (r.now ≡ drop 1 text.now)) }
    ensures none { IfNone result (is_at mark text.now ≡ false) }
{
    if begins(mark, text) {
        Some(past(mark, text))
    } else {
        None
    }
}

/// What stands behind a mark, where it is the next token.
pub(crate) fn next(mark: u8, text: &str) -> Option<&str>
    requires { mark < 128 }
    ensures some { IfSome result (λ r. (is_at mark (skip text.now) ≡ true) × (r.now ≡ drop 1 (skip text.now))) }
    ensures none { IfNone result (is_at mark (skip text.now) ≡ false) }
{
    after(mark, without_first_spaces(text))
}

/// What stands behind a mark, which has to stand first.
pub(crate) fn behind(mark: u8, text: &str) -> Result<&str, ReadError<SelKind>>
    requires { mark < 128 }
    ensures { Gives (λ x. x.now) result (mark_at Syntax mark text.now) }
{
    match after(mark, text) {
        Some(rest) => Ok(rest),
        None => Err(syntax(text)),
    }
}

/// Whether a byte may stand in the name of a field.
fn is_in_field(byte: u8) -> bool
    ensures { result ≡ is_field_byte byte }
{
    byte >= b'0' && byte <= b'9'
        || byte >= b'A' && byte <= b'Z'
        || byte >= b'a' && byte <= b'z'
        || byte == b'_'
}

/// Whether a byte may stand in a name.
fn is_in_name(byte: u8) -> bool
    ensures { result ≡ is_name_byte byte }
{
    !matches!(byte, b',' | b'/' | b'+' | b'(' | b')' | b'[' | b']' | b' ')
}

/// Whether a byte may stand in a value without quotes.
fn is_in_value(byte: u8) -> bool
    ensures { result ≡ is_value_byte byte }
{
    !matches!(byte, b']' | b'"' | b'\'' | b' ')
}

fn field_len(bytes: &[u8]) -> usize
    ensures { result ≡ prefix_len is_field_byte bytes.now }
{
    bytes.iter().take_while(|b| is_in_field(**b)).count()
}

fn name_len(bytes: &[u8]) -> usize
    ensures { result ≡ prefix_len is_name_byte bytes.now }
{
    bytes.iter().take_while(|b| is_in_name(**b)).count()
}

fn value_len(bytes: &[u8]) -> usize
    ensures { result ≡ prefix_len is_value_byte bytes.now }
{
    bytes.iter().take_while(|b| is_in_value(**b)).count()
}

/// The name of a field at the front.
#[tactic(auto, using(crate::proofs::CutLemmas::field_lead, crate::proofs::CutLemmas::field_within))]
pub(crate) fn field_word(text: &str) -> Result<(&str, &str), ReadError<SelKind>>
    ensures { Gives (λ x. (x.0.now, x.1.now)) result (run_at Syntax is_field_byte text.now) }
{
    let len = field_len(text.as_bytes());
    if len == 0 {
        return Err(syntax(text));
    }
    Ok((&text[..len], &text[len..]))
}

/// A name at the front.
#[tactic(auto, using(crate::proofs::CutLemmas::name_lead, crate::proofs::CutLemmas::name_within))]
pub(crate) fn name_word(text: &str) -> Result<(&str, &str), ReadError<SelKind>>
    ensures { Gives (λ x. (x.0.now, x.1.now)) result (run_at Syntax is_name_byte text.now) }
{
    let len = name_len(text.as_bytes());
    if len == 0 {
        return Err(syntax(text));
    }
    Ok((&text[..len], &text[len..]))
}

/// A value without quotes at the front.
#[tactic(auto, using(crate::proofs::CutLemmas::value_lead, crate::proofs::CutLemmas::value_within))]
pub(crate) fn value_word(text: &str) -> Result<(&str, &str), ReadError<SelKind>>
    ensures { Gives (λ x. (x.0.now, x.1.now)) result (run_at Syntax is_value_byte text.now) }
{
    let len = value_len(text.as_bytes());
    if len == 0 {
        return Err(syntax(text));
    }
    Ok((&text[..len], &text[len..]))
}
