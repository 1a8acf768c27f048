//! What a value is as a text, as a number, and as a day and a time.
ghost use Rattle.std.specs.Prelude.{◌≡◌, ◌++◌, ◌==◌, if◌then◌else◌, Some, None, IfOk, OnOk};
ghost use Rattle.std.specs.Option.{option_map};
ghost use Rattle.std.specs.String.{string_bytes};
ghost use Rattle.text_base.specs.Number.{number_of};
ghost use Rattle.info_tree.specs.Plain.{plain};
ghost use Rattle.field_text.specs.Plain as spec;

use crate::moment::{Moment, moment_of_number, moment_of_text};
use info_tree::{Style, Tree, push_json};
use std::alloc::Global;
use text_base::{Num, OutOfMemory, read_num};

/// JSON on one line, with all characters as they are.
const COMPACT: Style = Style {
    pretty: false,
    ascii: false,
};

/// Appends the plain text of a value: a text itself, of any other value its JSON.
pub fn push_plain(alloc: Global, out: &mut String, value: &Tree) -> Result<(), OutOfMemory>
    ensures { OnOk result (string_bytes out.new ≡ string_bytes out.old ++ spec.plain_text (plain value.now)) }
{
    match value {
        Tree::Text(text) => {
            out.push_str(text.as_str())?;
            Ok(())
        }
        _ => push_json(alloc, out, value, COMPACT),
    }
}

/// The plain text of a value.
pub fn plain_text(alloc: Global, value: &Tree) -> Result<String, OutOfMemory>
    ensures { IfOk result (λ t. string_bytes t ≡ spec.plain_text (plain value.now)) }
{
    let mut out = String::new(alloc);
    push_plain(alloc, &mut out, value)?;
    Ok(out)
}

/// The number that a value is, or that its text is as a whole.
pub fn number_in(value: &Tree) -> Option<Num>
    ensures { option_map number_of result ≡ spec.number_in (plain value.now) }
{
    match value {
        Tree::Num(num) => Some(*num),
        Tree::Text(text) => number_of_text(text.as_str()),
        _ => None,
    }
}

/// The number that a text is as a whole, where it is in range.
fn number_of_text(text: &str) -> Option<Num>
    ensures { option_map number_of result ≡ spec.number_of_text text.now }
{
    match read_num(text.as_bytes(), 0) {
        Ok((num, end)) => whole(num, end, text.len()),
        Err(_) => None,
    }
}

/// A number whose spelling ends there, where that is the end of the text.
fn whole(num: Num, end: usize, len: usize) -> Option<Num>
    ensures { result ≡ (if end == len then Some num else None) }
{
    if end == len { Some(num) } else { None }
}

/// The moment that a value stands for: midnight of a day of eight digits, or a number of seconds
/// from 1970 on, rounded down.
pub fn moment_of(value: &Tree) -> Option<Moment>
    ensures { result ≡ spec.moment_of (plain value.now) }
{
    match value {
        Tree::Text(text) => moment_of_text(text.as_str()),
        Tree::Num(num) => moment_of_number(*num),
        _ => None,
    }
}
