ghost use Rattle.std.specs.Prelude.{◌≡◌, ◌<◌, ◌≤◌, ◌^◌, ◌++◌, ◌∷◌, [], true, false, OnOk};
ghost use Rattle.std.specs.Str.{IsUtf8};
ghost use Rattle.std.specs.String.{string_bytes};
ghost use Rattle.info_tree.specs.Printed.{hex_digit, unit_escape, escaped, ascii_escaped, all_by, inside, quoted};

use crate::ascii::{split_ascii, split_plain};
use text_base::OutOfMemory;

/// Puts a text in quotes.
pub fn push_quoted(out: &mut String, text: &str, ascii: bool) -> Result<(), OutOfMemory>
    ensures out { OnOk result (string_bytes out.new ≡ string_bytes out.old
        ++ quoted ascii text.now) }
    ensures utf8 { IsUtf8 text.now }
{
    out.push('"')?;
    push_inside(out, text, ascii)?;
    out.push('"')?;
    Ok(())
}

#[tactic(auto, unfolding(crate::specs::Printed::inside))]
fn push_inside(out: &mut String, text: &str, ascii: bool) -> Result<(), OutOfMemory>
    ensures { OnOk result (string_bytes out.new ≡ string_bytes out.old ++ inside ascii text.now) }
{
    if ascii {
        push_ascii(out, text)
    } else {
        push_escaped(out, text)
    }
}

/// Puts the runs of plain bytes as they stand, and escapes what ends them.
fn push_escaped(out: &mut String, text: &str) -> Result<(), OutOfMemory>
    ensures { OnOk result (string_bytes out.new ≡ string_bytes out.old ++ inside false text.now) }
{
    let mut rest = text;
    'runs: loop {
        let (plain, marked) = split_plain(rest);
        out.push_str(plain)?;
        let Some((byte, after)) = split_ascii(marked) else {
            return Ok(());
        };
        push_byte(out, byte)?;
        rest = after;
    }
}

fn push_ascii(out: &mut String, text: &str) -> Result<(), OutOfMemory>
    ensures { OnOk result (string_bytes out.new ≡ string_bytes out.old ++ inside true text.now) }
{
    let mut chars = text.chars();
    'chars: while let Some(char) = chars.next() {
        push_char(out, char)?;
    }
    Ok(())
}

#[tactic(auto, unfolding(crate::specs::Printed::ascii_escaped))]
fn push_char(out: &mut String, char: char) -> Result<(), OutOfMemory>
    ensures { OnOk result (string_bytes out.new ≡ string_bytes out.old ++ ascii_escaped char) }
{
    let code = u32::from(char);
    if code < 127 {
        push_byte(out, code as u8)
    } else if code < 0x1_0000 {
        push_unit(out, code)
    } else {
        push_unit(out, 0xD800 + (code - 0x1_0000) / 0x400)?;
        push_unit(out, 0xDC00 + (code - 0x1_0000) % 0x400)
    }
}

#[tactic(auto, unfolding(crate::specs::Printed::escaped))]
fn push_byte(out: &mut String, byte: u8) -> Result<(), OutOfMemory>
    requires { byte < 128 }
    ensures { OnOk result (string_bytes out.new ≡ string_bytes out.old ++ escaped byte) }
{
    if byte == b'"' {
        out.push_str("\\\"")?;
    } else if byte == b'\\' {
        out.push_str("\\\\")?;
    } else if byte == 8 {
        out.push_str("\\b")?;
    } else if byte == 12 {
        out.push_str("\\f")?;
    } else if byte == b'\n' {
        out.push_str("\\n")?;
    } else if byte == b'\r' {
        out.push_str("\\r")?;
    } else if byte == b'\t' {
        out.push_str("\\t")?;
    } else if byte < 32 {
        push_unit(out, u32::from(byte))?;
    } else {
        out.push(byte as char)?;
    }
    Ok(())
}

fn push_unit(out: &mut String, unit: u32) -> Result<(), OutOfMemory>
    requires { unit < 2 ^ 16 }
    ensures { OnOk result (string_bytes out.new ≡ string_bytes out.old ++ unit_escape unit) }
{
    out.push_str("\\u")?;
    out.push(hex(unit / 4096))?;
    out.push(hex(unit / 256 % 16))?;
    out.push(hex(unit / 16 % 16))?;
    out.push(hex(unit % 16))?;
    Ok(())
}

fn hex(digit: u32) -> char
    requires { digit < 16 }
    ensures code { result ≡ hex_digit digit }
    ensures small { result < 128 }
{
    if digit < 10 {
        (b'0' + digit as u8) as char
    } else {
        (b'a' - 10 + digit as u8) as char
    }
}
