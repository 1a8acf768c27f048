//! The text of a value by a conversion, before it is cleaned.
ghost use Rattle.std.specs.Prelude.{◌≡◌, Some, IfOk};
ghost use Rattle.info_tree.specs.Plain.{plain};
ghost use Rattle.info_tree.specs.Printed.{printed, first_line};
ghost use Rattle.name_text.specs.Clean.{cleaned};
ghost use Rattle.name_text.specs.Quote.{escaped};
ghost use Rattle.field_text.specs.Frame.{framed as framed_text, framed_bytes as framed_in_bytes};
ghost use Rattle.field_text.specs.Plain as values;
ghost use Rattle.tpl_eval.specs.Convert as spec;
ghost use Rattle.tpl_eval.specs.Layout as layout;

use crate::layout::{
    between, decimal_form, factor_of, form_of, integer_form, number_frame, style_of, text_frame,
};
use field_text::{
    Item, Radix, decimal_text, framed, framed_bytes, integer_text, list_text, number_in, plain_text,
};
use info_tree::{Tree, tree_json};
use name_text::{clean, decimal_suffix, html_escape, normal_form, shell_quote};
use std::alloc::Global;
use text_base::{OutOfMemory, Text};
use tpl_lang::{Conv, Flags, Kind};

/// A whole number in a radix: none of a value that is no number.
fn integer(
    alloc: Global,
    radix: Radix,
    conv: Conv,
    value: &Tree,
) -> Result<Option<Text>, OutOfMemory>
    ensures { IfOk result (λ t. t ≡ spec.integer radix conv (plain value.now)) }
{
    let Some(num) = number_in(value) else {
        return Ok(None);
    };
    let text = integer_text(alloc, integer_form(radix, conv), num)?;
    Ok(Some(framed(alloc, text.as_str(), number_frame(conv))?))
}

/// A number with decimals: none of a value that is no number.
fn decimal(alloc: Global, conv: Conv, value: &Tree) -> Result<Option<Text>, OutOfMemory>
    ensures { IfOk result (λ t. t ≡ spec.decimal conv (plain value.now)) }
{
    let Some(num) = number_in(value) else {
        return Ok(None);
    };
    let text = decimal_text(alloc, decimal_form(conv), num)?;
    Ok(Some(framed(alloc, text.as_str(), number_frame(conv))?))
}

/// A number in short: none of a value that is no number.
fn suffixed(alloc: Global, conv: Conv, value: &Tree) -> Result<Option<Text>, OutOfMemory>
    ensures { IfOk result (λ t. t ≡ spec.suffixed conv (plain value.now)) }
{
    let Some(num) = number_in(value) else {
        return Ok(None);
    };
    let text = decimal_suffix(alloc, num, factor_of(conv.flags))?;
    Ok(Some(framed(alloc, text.as_str(), text_frame(conv))?))
}

fn json(alloc: Global, flags: Flags, value: &Tree) -> Result<Text, OutOfMemory>
    ensures { IfOk result (λ t. t ≡ printed (layout.style_of flags) (first_line flags.alternate) (plain value.now)) }
{
    tree_json(alloc, value, style_of(flags))
}

/// The values of a list.
fn list(alloc: Global, flags: Flags, value: &Tree) -> Result<Text, OutOfMemory>
    ensures { IfOk result (λ t. t ≡ values.listed Item.Plain (layout.between flags) (plain value.now)) }
{
    list_text(alloc, Item::Plain, between(flags), value)
}

/// One word of a shell, or a word for each value of a list.
fn words(alloc: Global, flags: Flags, value: &Tree) -> Result<Text, OutOfMemory>
    ensures { IfOk result (λ t. t ≡ spec.words flags (plain value.now)) }
{
    if flags.alternate {
        list_text(alloc, Item::Quoted, " ", value)
    } else {
        shell_quote(alloc, plain_text(alloc, value)?.as_str())
    }
}

/// The plain text in HTML.
fn html(alloc: Global, value: &Tree) -> Result<Text, OutOfMemory>
    ensures { IfOk result (λ t. t ≡ escaped (values.plain_text (plain value.now))) }
{
    html_escape(alloc, plain_text(alloc, value)?.as_str())
}

/// The plain text as a file name may have it, restricted to ASCII where that is asked for.
fn sanitized(alloc: Global, flags: Flags, value: &Tree) -> Result<Text, OutOfMemory>
    ensures { IfOk result (λ t. t ≡ cleaned flags.alternate (values.plain_text (plain value.now))) }
{
    clean(alloc, plain_text(alloc, value)?.as_str(), flags.alternate)
}

/// The plain text in a normal form of Unicode.
fn normal(alloc: Global, flags: Flags, value: &Tree) -> Result<Text, OutOfMemory>
    ensures { IfOk result (λ t. t ≡ spec.normal flags (plain value.now)) }
{
    normal_form(alloc, plain_text(alloc, value)?.as_str(), form_of(flags))
}

/// A text in its room, which is counted in characters.
fn in_frame(alloc: Global, conv: Conv, text: &str) -> Result<Option<Text>, OutOfMemory>
    ensures { IfOk result (λ t. t ≡ Some (framed_text (layout.text_frame conv) text.now)) }
{
    Ok(Some(framed(alloc, text, text_frame(conv))?))
}

/// A text in its room, which is counted in bytes.
fn in_byte_frame(alloc: Global, conv: Conv, text: &str) -> Result<Option<Text>, OutOfMemory>
    ensures { IfOk result (λ t. t ≡ Some (framed_in_bytes (layout.text_frame conv) text.now)) }
{
    Ok(Some(framed_bytes(alloc, text, text_frame(conv))?))
}

/// The text of a value by a conversion: none where it is refused.
pub(crate) fn converted(
    alloc: Global,
    conv: Conv,
    value: &Tree,
) -> Result<Option<Text>, OutOfMemory>
    ensures { IfOk result (λ t. t ≡ spec.converted conv (plain value.now)) }
{
    let flags = conv.flags;
    match conv.kind {
        Kind::Integer => integer(alloc, Radix::Decimal, conv, value),
        Kind::Octal => integer(alloc, Radix::Octal, conv, value),
        Kind::LowerHex => integer(alloc, Radix::LowerHex, conv, value),
        Kind::UpperHex => integer(alloc, Radix::UpperHex, conv, value),
        Kind::Decimal => decimal(alloc, conv, value),
        Kind::Suffixed => suffixed(alloc, conv, value),
        Kind::Text => in_frame(alloc, conv, plain_text(alloc, value)?.as_str()),
        Kind::Bytes => in_byte_frame(alloc, conv, plain_text(alloc, value)?.as_str()),
        Kind::Json => in_frame(alloc, conv, json(alloc, flags, value)?.as_str()),
        Kind::Html => in_frame(alloc, conv, html(alloc, value)?.as_str()),
        Kind::List => in_frame(alloc, conv, list(alloc, flags, value)?.as_str()),
        Kind::Quoted => in_frame(alloc, conv, words(alloc, flags, value)?.as_str()),
        Kind::Sanitized => in_frame(alloc, conv, sanitized(alloc, flags, value)?.as_str()),
        Kind::Unicode => in_frame(alloc, conv, normal(alloc, flags, value)?.as_str()),
    }
}
