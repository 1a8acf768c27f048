//! The tokens of a template, from the front of a text.

ghost use Rattle.std.specs.Prelude.{◌≡◌, ◌<◌, ◌≤◌, length, take, drop, true, false, IfSome, IfNone};
ghost use Rattle.std.specs.List.{prefix_len};
ghost use Rattle.read_base.specs.Reads.{Gives, is_at, mark_at, run_at};
ghost use Rattle.tpl_lang.specs.Bytes as spec;

use crate::tpl_kind::{TplKind, fault};
use read_base::ReadError;

/// The bytes of a run.
#[derive(Clone, Copy, Debug)]
pub enum Class {
    Word,
    Digit,
    Flag,
    Default,
    DateText,
    ReplacementText,
}

fn is_letter(byte: u8) -> bool
    ensures { result ≡ spec.is_letter byte }
{
    byte.is_ascii_alphabetic()
}

fn is_word_byte(byte: u8) -> bool
    ensures { result ≡ spec.is_word_byte byte }
{
    byte.is_ascii_digit() || is_letter(byte) || byte == b'_'
}

impl Class {
    fn has(self, byte: u8) -> bool
        ensures { result ≡ spec.in_class self byte }
    {
        match self {
            Class::Word => is_word_byte(byte),
            Class::Digit => byte.is_ascii_digit(),
            Class::Flag => matches!(byte, b'#' | b'0' | b'-' | b'+' | b' '),
            Class::Default => byte != b')',
            Class::DateText => !matches!(byte, b',' | b'&' | b'|' | b')' | b'%'),
            Class::ReplacementText => !matches!(byte, b'|' | b')' | b'{' | b'}'),
        }
    }
}

/// Whether the byte stands first.
pub(crate) fn begins(mark: u8, text: &str) -> bool
    ensures { result ≡ is_at mark text.now }
{
    match text.as_bytes() {
        [first, ..] => *first == mark,
        [] => false,
    }
}

/// Whether a byte of a word stands first.
pub(crate) fn begins_word(text: &str) -> bool
    ensures { result ≡ spec.has_word text.now }
{
    match text.as_bytes() {
        [first, ..] => is_word_byte(*first),
        [] => false,
    }
}

/// What stands behind the mark, where it stands first.
pub(crate) fn behind(mark: u8, text: &str) -> Option<&str>
    requires { mark < 128 }
    ensures some { IfSome result (λ r. (is_at mark text.now ≡ true) × (r.now ≡ drop 1 text.now)) }
    ensures none { IfNone result (is_at mark text.now ≡ false) }
{
    if begins(mark, text) {
        let (_, rest) = text.split_at(1);
        return Some(rest);
    }
    None
}

/// What stands behind the mark that stands first.
pub(crate) fn behind_first(mark: u8, text: &str) -> &str
    requires ascii { mark < 128 }
    requires here { is_at mark text.now ≡ true }
    ensures { result.now ≡ drop 1 text.now }
{
    let (_, rest) = text.split_at(1);
    rest
}

/// What stands behind the mark, which has to stand first.
pub(crate) fn expect(mark: u8, text: &str) -> Result<&str, ReadError<TplKind>>
    requires { mark < 128 }
    ensures { Gives (λ x. x.now) result (mark_at TplKind.Syntax mark text.now) }
{
    match behind(mark, text) {
        Some(rest) => Ok(rest),
        None => Err(fault(TplKind::Syntax, text)),
    }
}

/// How many bytes of the class stand at the front.
pub(crate) fn run_len(class: Class, text: &str) -> usize
    ensures len { result ≡ prefix_len (spec.in_class class) text.now }
    ensures within { result ≤ length text.now }
{
    text.as_bytes()
        .iter()
        .take_while(|b| class.has(**b))
        .count()
}

/// The run at the front, which may be empty, and what stands behind it.
pub(crate) fn run(class: Class, text: &str) -> (&str, &str)
    ensures front { result.0.now ≡ take (prefix_len (spec.in_class class) text.now) text.now }
    ensures back { result.1.now ≡ drop (prefix_len (spec.in_class class) text.now) text.now }
{
    text.split_at(run_len(class, text))
}

/// The run at the front, of one byte or more.
pub(crate) fn some_run(class: Class, text: &str) -> Result<(&str, &str), ReadError<TplKind>>
    ensures { Gives (λ x. (x.0.now, x.1.now)) result (run_at TplKind.Syntax (spec.in_class class) text.now) }
{
    let len = run_len(class, text);
    if len == 0 {
        return Err(fault(TplKind::Syntax, text));
    }
    Ok(run(class, text))
}
