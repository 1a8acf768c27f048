//! Marks of ASCII that stand for something else, and the runs between them, which are copied whole.
ghost use Rattle.std.specs.Prelude.{◌≡◌, ◌++◌, ◌==◌, OnOk};
ghost use Rattle.std.specs.List.{flat_map};
ghost use Rattle.std.specs.Str.{chars};
ghost use Rattle.std.specs.String.{string_bytes};
ghost use Rattle.text_base.specs.Scan.{IsFirst};
ghost use Rattle.name_text.specs.Marks.{look_alike, in_name, in_html, in_quotes, written, ends_run, is_html_mark, IsRun};

use text_base::{OutOfMemory, first_name_special};

/// Where a text is to stand, and so which marks stand for something else.
#[derive(Clone, Copy)]
pub enum Marks {
    Name,
    Html,
    Quote,
}

/// Puts a text at the end of another one, each of its characters as it is written there.
pub fn push_written(out: &mut String, text: &str, marks: Marks) -> Result<(), OutOfMemory>
    ensures { OnOk result (string_bytes out.new
        ≡ string_bytes out.old ++ flat_map (written marks) (chars text.now)) }
{
    let mut rest = text;
    'runs: loop {
        let (run, marked) = split_run(rest, marks);
        out.push_str(run)?;
        let mut chars = marked.chars();
        let Some(mark) = chars.next() else {
            return Ok(());
        };
        push_mark(out, mark, marks)?;
        rest = chars.as_str();
    }
}

/// The characters before the first mark, and what stands from it on.
fn split_run(text: &str, marks: Marks) -> (&str, &str)
    ensures { IsRun marks text.now result.0.now result.1.now }
{
    let end = run_len(text.as_bytes(), marks);
    (&text[..end], &text[end..])
}

/// The first place of a mark, else the length.
fn run_len(bytes: &[u8], marks: Marks) -> usize
    ensures { IsFirst (ends_run marks) bytes.now 0 result }
{
    match marks {
        Marks::Name => first_name_special(bytes, 0),
        Marks::Html => first_html_mark(bytes),
        Marks::Quote => first_quote(bytes),
    }
}

fn first_html_mark(bytes: &[u8]) -> usize
    ensures { IsFirst is_html_mark bytes.now 0 result }
{
    for at in 0..bytes.len() {
        if matches!(bytes[at], b'&' | b'<' | b'>' | b'"' | b'\'') {
            return at;
        }
    }
    bytes.len()
}

fn first_quote(bytes: &[u8]) -> usize
    ensures { IsFirst (λ b. b == 39) bytes.now 0 result }
{
    for at in 0..bytes.len() {
        if bytes[at] == b'\'' {
            return at;
        }
    }
    bytes.len()
}

#[tactic(auto, unfolding(crate::specs::Marks::in_name, crate::specs::Marks::in_html, crate::specs::Marks::in_quotes))]
fn push_mark(out: &mut String, mark: char, marks: Marks) -> Result<(), OutOfMemory>
    ensures { OnOk result (string_bytes out.new ≡ string_bytes out.old ++ written marks mark) }
{
    match marks {
        Marks::Name => push_in_name(out, mark),
        Marks::Html => push_in_html(out, mark),
        Marks::Quote => push_in_quotes(out, mark),
    }
}

#[tactic(auto, unfolding(crate::specs::Marks::in_name))]
fn push_in_name(out: &mut String, char: char) -> Result<(), OutOfMemory>
    ensures { OnOk result (string_bytes out.new ≡ string_bytes out.old ++ in_name char) }
{
    if !char.is_ascii_control() {
        out.push(look_alike(char))?;
    }
    Ok(())
}

/// The character that stands in a file name for one that can't.
fn look_alike(char: char) -> char
    ensures { result ≡ look_alike char }
{
    match char {
        '"' => '＂',
        '*' => '＊',
        ':' => '：',
        '<' => '＜',
        '>' => '＞',
        '?' => '？',
        '|' => '｜',
        '/' => '⧸',
        '\\' => '⧹',
        _ => char,
    }
}

#[tactic(auto, unfolding(crate::specs::Marks::in_html))]
fn push_in_html(out: &mut String, char: char) -> Result<(), OutOfMemory>
    ensures { OnOk result (string_bytes out.new ≡ string_bytes out.old ++ in_html char) }
{
    match char {
        '&' => out.push_str("&amp;")?,
        '<' => out.push_str("&lt;")?,
        '>' => out.push_str("&gt;")?,
        '"' => out.push_str("&quot;")?,
        '\'' => out.push_str("&#39;")?,
        _ => out.push(char)?,
    }
    Ok(())
}

#[tactic(auto, unfolding(crate::specs::Marks::in_quotes))]
fn push_in_quotes(out: &mut String, char: char) -> Result<(), OutOfMemory>
    ensures { OnOk result (string_bytes out.new ≡ string_bytes out.old ++ in_quotes char) }
{
    match char {
        '\'' => out.push_str("'\"'\"'")?,
        _ => out.push(char)?,
    }
    Ok(())
}
