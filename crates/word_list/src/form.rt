ghost use Rattle.std.specs.Prelude.{◌≡◌, ◌≤◌, length};
ghost use Rattle.std.specs.Option.{option_copied};
ghost use Rattle.word_list.specs.Form.{form_of, long_form, short_form, formed};
ghost use Rattle.word_list.specs.OptionTable.{meaning_of};
ghost use Rattle.word_list.specs.Forms.{plain_form};

use crate::fault::OptionFault;
use crate::meaning::{Flag, Meaning, Valued};
use crate::option_table::meaning_of;

/// What a word is by itself.
#[derive(Clone, Copy)]
pub enum Form<'a> {
    Turns(Flag),
    /// The option and its value stand in one word.
    Gives(Valued, &'a str),
    /// The option's value is the next word.
    Asks(Valued),
    /// No word behind it is an option.
    Closes,
    Faulty(OptionFault),
}

/// What a word is by itself.
pub fn form_of(word: &str) -> Form<'_>
    ensures { plain_form result ≡ form_of word.now }
{
    match word.as_bytes() {
        b"--" => Form::Closes,
        [b'-', b'-', ..] => long_form(word),
        [b'-', _, ..] => short_form(word),
        _ => Form::Faulty(OptionFault::Extra),
    }
}

/// A long option: its name, and behind the first `=` its value.
fn long_form(word: &str) -> Form<'_>
    ensures { plain_form result ≡ long_form word.now }
{
    match word.split_once('=') {
        Some((name, value)) => formed(name, Some(value), OptionFault::TakesNone),
        None => formed(word, None, OptionFault::TakesNone),
    }
}

/// A short option: a letter, and behind it its value.
fn short_form(word: &str) -> Form<'_>
    requires { 2 ≤ length word.now }
    ensures { plain_form result ≡ short_form word.now }
{
    if !word.as_bytes()[1].is_ascii() {
        return Form::Faulty(OptionFault::Unknown);
    }
    let (name, value) = word.split_at(2);
    if value.is_empty() {
        formed(name, None, OptionFault::Unknown)
    } else {
        formed(name, Some(value), OptionFault::Unknown)
    }
}

/// What a word with this name is, with the value that stands in the same word; a flag with a value has this fault.
fn formed<'a>(name: &str, value: Option<&'a str>, of_flag: OptionFault) -> Form<'a>
    ensures { plain_form result ≡ formed (meaning_of name.now) (option_copied value.entry) of_flag }
{
    match (meaning_of(name), value) {
        (None, _) => Form::Faulty(OptionFault::Unknown),
        (Some(Meaning::Flag(flag)), None) => Form::Turns(flag),
        (Some(Meaning::Flag(_)), Some(_)) => Form::Faulty(of_flag),
        (Some(Meaning::Value(option)), None) => Form::Asks(option),
        (Some(Meaning::Value(option)), Some(value)) => Form::Gives(option, value),
    }
}
