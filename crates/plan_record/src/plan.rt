//! The text of a record.
ghost use Rattle.std.specs.Prelude.{◌≡◌, ◌++◌, IfOk, OnOk};
ghost use Rattle.std.specs.String.{string_bytes};
ghost use Rattle.plan_record.specs.Plan.{line_text, plan_text};

use crate::line::Line;
use itoa::Buffer;
use std::alloc::{AllocError, Global};
use text_base::OutOfMemory;

/// The first line, a count of 64 bits and its LF.
const HEAD_ROOM: usize = 33;
/// What a line has beside its URL: `u`, a space and LF.
const LINE_ROOM: usize = 3;

/// The text of a plan's record, in room that is made once.
pub fn plan_text(alloc: Global, lines: &[Line]) -> Result<String, OutOfMemory>
    ensures { IfOk result (λ text. string_bytes text ≡ plan_text lines.now) }
{
    let mut digits = Buffer::new();
    let mut text = String::with_capacity(alloc, text_room(lines)?)?;
    text.push_str("ytdl-plan 1\n")?;
    text.push_str(digits.format(lines.len()))?;
    text.push_str("\n")?;
    for line in lines {
        push_line(&mut text, line)?;
    }
    Ok(text)
}

/// Room for the whole text.
fn text_room(lines: &[Line]) -> Result<usize, AllocError> {
    let mut room = HEAD_ROOM;
    for line in lines {
        let url = match line {
            Line::Url(url) => url.as_str().len(),
            Line::NoUrl => 0,
        };
        let more = url.checked_add(LINE_ROOM).ok_or(AllocError)?;
        room = room.checked_add(more).ok_or(AllocError)?;
    }
    Ok(room)
}

/// Writes a piece's line behind the text.
fn push_line(text: &mut String, line: &Line) -> Result<(), AllocError>
    ensures { OnOk result (string_bytes text.new ≡ string_bytes text.old ++ line_text line.now) }
{
    match line {
        Line::Url(url) => {
            text.push_str("u ")?;
            text.push_str(url.as_str())?;
            text.push_str("\n")
        }
        Line::NoUrl => text.push_str("x\n"),
    }
}
