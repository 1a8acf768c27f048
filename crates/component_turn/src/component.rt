//! A component that is to be made.
ghost use Rattle.std.specs.Prelude.{◌≡◌, ◌<◌, ◌^◌, true, IfOk, length, string_bytes, vec_len};
ghost use Rattle.component_store.specs.Component.{IsPlan};
ghost use Rattle.component_store.specs.Target.{component_of};
ghost use Rattle.plan_record.specs.Plan.{are_lines, plan_text};
ghost use Rattle.component_turn.specs.Plan.{line_of, lines_of};

use component_store::Target;
use link_http::{Piece, leads_over_http};
use plan_record::{Line, plan_text};
use std::alloc::Global;
use text_base::{OutOfMemory, Text};

/// A component that is to be made: its target, the text of its plan's record, and the pieces of which it
/// is joined, in their order.
#[derive(Drop)]
pub struct Component {
    pub(crate) target: Target,
    pub(crate) name: String,
    pub(crate) plan: String,
    pub(crate) pieces: Vec<Piece>,
    pub ghost target_is: { component_of target ≡ string_bytes name },
    pub ghost count_is: { target.count ≡ length pieces.items },
    pub ghost plan_is: { string_bytes plan ≡ plan_text (lines_of pieces.items) },
    pub ghost fit: { IsPlan (lines_of pieces.items) },
    pub ghost some: { 0 < length pieces.items },
    pub ghost few: { length pieces.items < 2 ^ 63 },
}

/// What the plan says of a piece: its URL, where that leads over http.
fn line_of(alloc: Global, piece: &Piece) -> Result<Line, OutOfMemory>
    ensures { IfOk result (λ line. line ≡ line_of piece.now) }
{
    let url = piece.url.as_str();
    if leads_over_http(alloc, url)? {
        Ok(Line::Url(Text::new(alloc, url)?))
    } else {
        Ok(Line::NoUrl)
    }
}

/// What the plan says of each piece.
fn lines_of(alloc: Global, pieces: &[Piece]) -> Result<Vec<Line>, OutOfMemory>
    ensures { IfOk result (λ lines. lines.items ≡ lines_of pieces.now) }
{
    let mut lines = Vec::with_capacity(alloc, pieces.len())?;
    for piece in pieces {
        lines.push_reserved(line_of(alloc, piece)?);
    }
    Ok(lines)
}

impl Component {
    ghost use Rattle.component_turn.specs.Component.{name_of};

    /// A component of this name in these pieces, of which there is one at least. Where the name is final
    /// no call removes it.
    pub fn new(
        alloc: Global,
        name: &str,
        pieces: Vec<Piece>,
        is_final: bool,
    ) -> Result<Component, OutOfMemory>
        requires some { 0 < vec_len pieces }
        requires few { vec_len pieces < 2 ^ 63 }
        requires plain { are_lines (lines_of pieces.items) ≡ true }
        ensures named { IfOk result (λ component. name_of component ≡ name.now) }
        ensures pieces { IfOk result (λ component. component.pieces.items ≡ pieces.items) }
        ensures is_final { IfOk result (λ component. component.target.is_final ≡ is_final) }
    {
        let lines = lines_of(alloc, pieces.as_slice())?;
        let plan = plan_text(alloc, lines.as_slice())?;
        Ok(Component {
            target: Target::new(alloc, name, pieces.len(), is_final)?,
            name: String::from_str(alloc, name)?,
            plan,
            pieces,
        })
    }
}
