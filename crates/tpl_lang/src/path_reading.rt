//! Paths and their keys.

ghost use Rattle.std.specs.Prelude.{◌≡◌, ℕ, List, drop, true};
ghost use Rattle.read_base.specs.Reads.{Gives, is_at};
ghost use Rattle.tpl_lang.specs.Bytes.{is_word_byte};
ghost use Rattle.tpl_lang.specs.Keys as spec;

use crate::expr::Path;
use crate::ints::{begins_int, int, int_value};
use crate::key::{Key, Slice, Words};
use crate::listed::{Listed, all_of};
use crate::scan::{Class, begins, begins_word, behind, behind_first, expect, run, some_run};
use crate::tpl_kind::{TplKind, fault};
use read_base::ReadError;
use std::alloc::Global;
use text_base::Text;

/// Another word between braces.
impl Listed for Text {
    ghost use Rattle.std.specs.Prelude.{drop};
    ghost use Rattle.read_base.specs.Reads.{is_at};
    ghost use Rattle.tpl_lang.specs.Keys.{word_at};

    ghost test = { is_at 44 };

    ghost item = { λ t. word_at (drop 1 t) };

    fn begins(text: &str) -> bool {
        begins(b',', text)
    }

    fn read(alloc: Global, text: &str) -> Result<(Text, &str), ReadError<TplKind>> {
        word(alloc, behind_first(b',', text))
    }
}

/// Another key of a path.
impl Listed for Key {
    ghost use Rattle.std.specs.Prelude.{drop};
    ghost use Rattle.read_base.specs.Reads.{is_at};
    ghost use Rattle.tpl_lang.specs.Keys.{key_at};

    ghost test = { is_at 46 };

    ghost item = { λ t. key_at (drop 1 t) };

    fn begins(text: &str) -> bool {
        begins(b'.', text)
    }

    fn read(alloc: Global, text: &str) -> Result<(Key, &str), ReadError<TplKind>> {
        key(alloc, behind_first(b'.', text))
    }
}

/// A word that is not empty.
fn word(alloc: Global, text: &str) -> Result<(Text, &str), ReadError<TplKind>>
    ensures { Gives (λ x. (x.0, x.1.now)) result (spec.word_at text.now) }
{
    let (word, rest) = some_run(Class::Word, text)?;
    Ok((Text::new(alloc, word)?, rest))
}

/// The words behind `{`.
#[tactic(auto, unfolding(crate::specs::Keys::braces_at))]
fn braces(alloc: Global, text: &str) -> Result<(Words, &str), ReadError<TplKind>>
    ensures { Gives (λ x. (x.0, x.1.now)) result (spec.braces_at text.now) }
{
    let (first, rest) = word(alloc, text)?;
    let (mut words, rest) = all_of::<Text>(alloc, rest)?;
    let rest = expect(b'}', rest)?;
    words.insert(0, first)?;
    Ok((Words::new(words), rest))
}

/// A number of a slice, where one stands.
#[tactic(auto, unfolding(crate::specs::Keys::bound_at))]
fn bound(text: &str) -> Result<(Option<i64>, &str), ReadError<TplKind>>
    ensures { Gives (λ x. (x.0, x.1.now)) result (spec.bound_at text.now) }
{
    let is_negative = match behind(b'-', text) {
        Some(digits) => begins_int(digits),
        None => false,
    };
    if !begins_word(text) && !is_negative {
        return Ok((None, text));
    }
    let (spelling, rest) = int(text)?;
    Ok((Some(int_value(spelling)), rest))
}

/// The step of a slice, where one stands.
#[tactic(auto, unfolding(crate::specs::Keys::step_at))]
fn step(text: &str) -> Result<(Option<i64>, &str), ReadError<TplKind>>
    ensures { Gives (λ x. (x.0, x.1.now)) result (spec.step_at text.now) }
{
    let (step, rest) = bound(text)?;
    match step {
        Some(0) if rest.is_empty() => Err(fault(TplKind::Syntax, rest)),
        Some(0) => Err(fault(TplKind::Step, text)),
        _ => Ok((step, rest)),
    }
}

/// A slice behind its first colon.
#[tactic(auto, unfolding(crate::specs::Keys::slice_behind))]
fn slice(from: Option<i64>, text: &str) -> Result<(Key, &str), ReadError<TplKind>>
    ensures { Gives (λ x. (x.0, x.1.now)) result (spec.slice_behind from text.now) }
{
    let (to, rest) = bound(text)?;
    let (step, rest) = match behind(b':', rest) {
        Some(behind) => step(behind)?,
        None => (None, rest),
    };
    Ok((Key::Slice(Slice { from, to, step }), rest))
}

/// An int, or the slice that begins with it.
#[tactic(auto, unfolding(crate::specs::Keys::int_key_at))]
fn int_key(alloc: Global, text: &str) -> Result<(Key, &str), ReadError<TplKind>>
    ensures { Gives (λ x. (x.0, x.1.now)) result (spec.int_key_at text.now) }
{
    let (spelling, rest) = int(text)?;
    let place = int_value(spelling);
    if let Some(behind) = behind(b':', rest) {
        return slice(Some(place), behind);
    }
    let spelling = Text::new(alloc, spelling)?;
    Ok((Key::Int { spelling, place }, rest))
}

/// A key behind its dot.
#[tactic(auto, unfolding(crate::specs::Keys::key_at))]
fn key(alloc: Global, text: &str) -> Result<(Key, &str), ReadError<TplKind>>
    ensures { Gives (λ x. (x.0, x.1.now)) result (spec.key_at text.now) }
{
    if let Some(behind) = behind(b'{', text) {
        let (words, rest) = braces(alloc, behind)?;
        return Ok((Key::Braces(words), rest));
    }
    if let Some(behind) = behind(b':', text) {
        return slice(None, behind);
    }
    if begins(b'-', text) || begins_int(text) {
        return int_key(alloc, text);
    }
    let (word, rest) = word(alloc, text)?;
    Ok((Key::Word(word), rest))
}

/// The path of a word, with the keys behind it.
#[tactic(auto, unfolding(crate::specs::Keys::path_behind))]
pub(crate) fn path_behind<'a>(
    alloc: Global,
    word: &str,
    text: &'a str,
) -> Result<(Path, &'a str), ReadError<TplKind>>
    ensures { Gives (λ x. (x.0, x.1.now)) result (spec.path_behind word.now text.now) }
{
    let (keys, rest) = all_of::<Key>(alloc, text)?;
    let word = Text::new(alloc, word)?;
    Ok((Path::new(word, keys), rest))
}

/// A path, whose word may be empty.
#[tactic(auto, unfolding(crate::specs::Keys::path_at))]
pub(crate) fn path(alloc: Global, text: &str) -> Result<(Path, &str), ReadError<TplKind>>
    ensures { Gives (λ x. (x.0, x.1.now)) result (spec.path_at text.now) }
{
    let (word, rest) = run(Class::Word, text);
    path_behind(alloc, word, rest)
}
