//! A text as one word of a shell, and in HTML.
ghost use Rattle.std.specs.Prelude.{◌≡◌, IfOk};
ghost use Rattle.name_text.specs.Quote.{quoted, escaped, is_bare_word, is_bare};

use crate::marks::{Marks, push_written};
use std::alloc::Global;
use text_base::{OutOfMemory, Text};

/// Whether a shell takes the text as one word as it stands.
fn is_bare_word(text: &str) -> bool
    ensures { result ≡ is_bare_word text.now }
{
    !text.is_empty() && text.as_bytes().iter().all(|byte| is_bare(*byte))
}

#[tactic(auto, unfolding(crate::specs::Quote::is_bare))]
fn is_bare(byte: u8) -> bool
    ensures { result ≡ is_bare byte }
{
    byte.is_ascii_alphanumeric()
        || matches!(
            byte,
            b'_' | b'@' | b'%' | b'+' | b'=' | b':' | b',' | b'.' | b'/' | b'-'
        )
}

/// The text as one word of a POSIX shell: between single quotes, unless it is a plain word.
pub fn shell_quote(alloc: Global, text: &str) -> Result<Text, OutOfMemory>
    ensures { IfOk result (λ t. t ≡ quoted text.now) }
{
    if is_bare_word(text) {
        return Text::new(alloc, text);
    }
    let mut out = String::new(alloc);
    out.push('\'')?;
    push_written(&mut out, text, Marks::Quote)?;
    out.push('\'')?;
    Ok(Text::from(out))
}

/// The text in HTML, also between the quotes of an attribute.
pub fn html_escape(alloc: Global, text: &str) -> Result<Text, OutOfMemory>
    ensures { IfOk result (λ t. t ≡ escaped text.now) }
{
    let mut out = String::new(alloc);
    push_written(&mut out, text, Marks::Html)?;
    Ok(Text::from(out))
}
