//! How much room a text takes.
ghost use Rattle.std.specs.Prelude.{◌≡◌, length, IfOk};
ghost use Rattle.std.specs.Str.{chars};
ghost use Rattle.field_text.specs.Frame as spec;

use crate::digits::push_times;
use name_text::byte_cut;
use std::alloc::Global;
use text_base::{OutOfMemory, Text};

/// How much room a text takes.
#[derive(Clone, Copy, Debug)]
pub struct Frame {
    /// The text stands on the left, and the spaces behind it.
    pub left: bool,
    /// Spaces fill the text up to it.
    pub width: usize,
    /// What is past it is cut off.
    pub precision: Option<usize>,
}

/// A text in its frame, counted in characters.
pub fn framed(alloc: Global, text: &str, frame: Frame) -> Result<Text, OutOfMemory>
    ensures { IfOk result (λ t. t ≡ spec.framed frame text.now) }
{
    match frame.precision {
        Some(count) => {
            let cut = first_chars(alloc, text, count)?;
            widened_chars(alloc, cut.as_str(), frame)
        }
        None => widened_chars(alloc, text, frame),
    }
}

/// A text in its frame, counted in bytes; an incomplete last character is dropped.
pub fn framed_bytes(alloc: Global, text: &str, frame: Frame) -> Result<Text, OutOfMemory>
    ensures { IfOk result (λ t. t ≡ spec.framed_bytes frame text.now) }
{
    match frame.precision {
        Some(count) => {
            let cut = byte_cut(alloc, text, count)?;
            widened_bytes(alloc, cut.as_str(), frame)
        }
        None => widened_bytes(alloc, text, frame),
    }
}

/// The first so many characters.
fn first_chars(alloc: Global, text: &str, count: usize) -> Result<Text, OutOfMemory>
    ensures { IfOk result (λ t. t ≡ spec.first_chars count text.now) }
{
    let mut first = String::new(alloc);
    let mut chars = text.chars();
    for _ in 0..count {
        let Some(char) = chars.next() else {
            return Ok(Text::from(first));
        };
        first.push(char)?;
    }
    Ok(Text::from(first))
}

fn count_chars(text: &str) -> usize
    ensures { result ≡ length (chars text.now) }
{
    text.chars().count()
}

fn widened_chars(alloc: Global, text: &str, frame: Frame) -> Result<Text, OutOfMemory>
    ensures { IfOk result (λ t. t ≡ spec.widened_chars frame text.now) }
{
    widened(alloc, text, frame, count_chars(text))
}

fn widened_bytes(alloc: Global, text: &str, frame: Frame) -> Result<Text, OutOfMemory>
    ensures { IfOk result (λ t. t ≡ spec.widened_bytes frame text.now) }
{
    widened(alloc, text, frame, text.len())
}

/// A text that counts so much, with spaces beside it.
fn widened(alloc: Global, text: &str, frame: Frame, count: usize) -> Result<Text, OutOfMemory>
    ensures { IfOk result (λ t. t ≡ spec.widened frame.left frame.width count text.now) }
{
    let room = frame.width.saturating_sub(count);
    let mut out = String::with_capacity(alloc, text.len())?;
    if frame.left {
        out.push_str(text)?;
        push_times(&mut out, ' ', room)?;
    } else {
        push_times(&mut out, ' ', room)?;
        out.push_str(text)?;
    }
    Ok(Text::from(out))
}
