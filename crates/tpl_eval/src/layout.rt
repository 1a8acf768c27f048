//! How flags, width and precision lay out the text of a value.
ghost use Rattle.std.specs.Prelude.{◌≡◌, ◌⊎◌, None};
ghost use Rattle.tpl_eval.specs.Layout as spec;

use field_text::{DecimalForm, Frame, IntegerForm, Radix, Sign};
use info_tree::Style;
use tpl_lang::{Conv, Flags};
use unicode_normalization::Form;

/// The width, 0 where none is written.
fn width_of(conv: Conv) -> usize
    ensures { result ≡ spec.width_of conv }
{
    conv.width.unwrap_or(0) as usize
}

/// The precision, or else so much.
fn precision_or(conv: Conv, default: u32) -> usize
    ensures { result ≡ spec.precision_or conv default }
{
    conv.precision.unwrap_or(default) as usize
}

/// What stands before a number that is not negative.
fn sign_of(flags: Flags) -> Sign
    ensures { result ≡ spec.sign_of flags }
{
    if flags.plus {
        Sign::Plus
    } else if flags.space {
        Sign::Space
    } else {
        Sign::Minus
    }
}

/// The width up to which zeros fill a number.
fn zeros_to(conv: Conv) -> usize
    ensures { result ≡ spec.zeros_to conv }
{
    if conv.flags.zero && !conv.flags.left {
        width_of(conv)
    } else {
        0
    }
}

/// A whole number in a radix.
pub(crate) fn integer_form(radix: Radix, conv: Conv) -> IntegerForm
    ensures { result ≡ spec.integer_form radix conv }
{
    IntegerForm {
        radix,
        sign: sign_of(conv.flags),
        prefixed: conv.flags.alternate,
        least: precision_or(conv, 0),
        width: zeros_to(conv),
    }
}

/// A number with decimals, six where nothing else is written.
pub(crate) fn decimal_form(conv: Conv) -> DecimalForm
    ensures { result ≡ spec.decimal_form conv }
{
    DecimalForm {
        sign: sign_of(conv.flags),
        places: precision_or(conv, 6),
        width: zeros_to(conv),
    }
}

/// The room of a text.
pub(crate) fn text_frame(conv: Conv) -> Frame
    ensures { result ≡ spec.text_frame conv }
{
    Frame {
        left: conv.flags.left,
        width: width_of(conv),
        precision: precision_of(conv),
    }
}

fn precision_of(conv: Conv) -> Option<usize>
    ensures { result ≡ conv.precision }
{
    match conv.precision {
        Some(count) => Some(count as usize),
        None => None,
    }
}

/// The room of a number, which is not cut.
pub(crate) fn number_frame(conv: Conv) -> Frame
    ensures { result ≡ spec.number_frame conv }
{
    Frame {
        left: conv.flags.left,
        width: width_of(conv),
        precision: None,
    }
}

/// JSON on one line, or indented; in ASCII, unless a plus is written.
pub(crate) fn style_of(flags: Flags) -> Style
    ensures { result ≡ spec.style_of flags }
{
    Style {
        pretty: flags.alternate,
        ascii: !flags.plus,
    }
}

/// The normal form of Unicode.
pub(crate) fn form_of(flags: Flags) -> Form
    ensures { result ≡ spec.form_of flags }
{
    match (flags.plus, flags.alternate) {
        (false, false) => Form::Nfc,
        (false, true) => Form::Nfd,
        (true, false) => Form::Nfkc,
        (true, true) => Form::Nfkd,
    }
}

/// What the units of a number in short are powers of.
pub(crate) fn factor_of(flags: Flags) -> u16
    ensures value { result ≡ spec.factor_of flags }
    ensures either { (result ≡ 1000) ⊎ (result ≡ 1024) }
{
    if flags.alternate { 1024 } else { 1000 }
}

/// What stands between the values of a list.
pub(crate) fn between(flags: Flags) -> &'static str
    ensures { result.now ≡ spec.between flags }
{
    if flags.alternate { "\n" } else { ", " }
}
