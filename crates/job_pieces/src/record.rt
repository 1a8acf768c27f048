//! The record of a component's plan.
ghost use Rattle.std.specs.Prelude.{◌≡◌, IfOk, map};
ghost use Rattle.job_pieces.specs.Record as spec;
ghost use Rattle.job_pieces.specs.Views.{plain_component, plain_piece};

use crate::component::Component;
use link_http::{Piece, leads_over_http};
use plan_record::Line;
use std::alloc::Global;
use text_base::{OutOfMemory, Text};

/// The line of a piece.
fn line_of(alloc: Global, piece: &Piece) -> Result<Line, OutOfMemory>
    ensures { IfOk result (λ line. line ≡ spec.line_of (plain_piece piece.now)) }
{
    let url = piece.url.as_str();
    if leads_over_http(alloc, url)? {
        Ok(Line::Url(Text::new(alloc, url)?))
    } else {
        Ok(Line::NoUrl)
    }
}

/// The lines of pieces.
fn lines_of(alloc: Global, pieces: &[Piece]) -> Result<Vec<Line>, OutOfMemory>
    ensures { IfOk result (λ v. v.items ≡ map spec.line_of (map plain_piece pieces.now)) }
{
    let mut lines = Vec::with_capacity(alloc, pieces.len())?;
    for piece in pieces {
        lines.push(line_of(alloc, piece)?)?;
    }
    Ok(lines)
}

/// The text of a component's record: for each piece its URL, where that leads to a host over HTTP.
pub fn plan_text(alloc: Global, component: &Component) -> Result<Text, OutOfMemory>
    ensures { IfOk result (λ t. t ≡ spec.record_text (plain_component component.now)) }
{
    let lines = lines_of(alloc, &component.pieces)?;
    Ok(Text::from(plan_record::plan_text(alloc, &lines)?))
}
