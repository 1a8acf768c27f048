//! A text in a file name.
ghost use Rattle.std.specs.Prelude.{◌≡◌, ◌++◌, true, IfOk, OnOk};
ghost use Rattle.std.specs.List.{flat_map};
ghost use Rattle.std.specs.Str.{chars};
ghost use Rattle.std.specs.String.{string_bytes};
ghost use Rattle.name_text.specs.Clean.{cleaned, restricted, is_underscored};

use crate::marks::{Marks, push_written};
use std::alloc::Global;
use text_base::{OutOfMemory, Text};
use unicode_normalization::char::is_combining_mark;
use unicode_normalization::to_nfkd;

/// The text as it can stand in a file name; restricted to ASCII without spaces where that is asked for.
pub fn clean(alloc: Global, text: &str, restricted: bool) -> Result<Text, OutOfMemory>
    ensures { IfOk result (λ t. t ≡ cleaned restricted text.now) }
{
    let mut out = String::with_capacity(alloc, text.len())?;
    if restricted {
        push_restricted(alloc, &mut out, text)?;
    } else {
        push_written(&mut out, text, Marks::Name)?;
    }
    Ok(Text::from(out))
}

fn push_restricted(alloc: Global, out: &mut String, text: &str) -> Result<(), OutOfMemory>
    ensures { OnOk result (string_bytes out.new ≡ string_bytes out.old ++ cleaned true text.now) }
{
    let decomposed = to_nfkd(alloc, text)?;
    push_all_restricted(out, decomposed.as_str())
}

fn push_all_restricted(out: &mut String, text: &str) -> Result<(), OutOfMemory>
    ensures { OnOk result (string_bytes out.new
        ≡ string_bytes out.old ++ flat_map restricted (chars text.now)) }
{
    let mut chars = text.chars();
    'chars: while let Some(char) = chars.next() {
        push_in_restricted(out, char)?;
    }
    Ok(())
}

#[tactic(auto, unfolding(crate::specs::Clean::restricted))]
fn push_in_restricted(out: &mut String, char: char) -> Result<(), OutOfMemory>
    ensures { OnOk result (string_bytes out.new ≡ string_bytes out.old ++ restricted char) }
{
    if char.is_ascii_control() || char == '?' || char == '"' {
        return Ok(());
    }
    if char == ':' {
        out.push_str("_-")?;
    } else if char.is_whitespace() || is_underscored(char) {
        out.push('_')?;
    } else if char.is_ascii() {
        out.push(char)?;
    } else if !is_combining_mark(char) {
        out.push('_')?;
    }
    Ok(())
}

/// Whether an underscore stands for a mark of ASCII.
fn is_underscored(char: char) -> bool
    ensures { result ≡ is_underscored char }
{
    matches!(
        char,
        '\\' | '/'
            | '|'
            | '*'
            | '<'
            | '>'
            | '!'
            | '&'
            | '\''
            | '('
            | ')'
            | '['
            | ']'
            | '{'
            | '}'
            | '$'
            | ';'
            | '`'
            | '^'
            | ','
            | '#'
    )
}
