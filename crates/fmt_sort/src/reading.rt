//! Sort words: the fields that they give, or their first fault.

ghost use Rattle.std.specs.Prelude.{◌≡◌, ◌+◌, ◌^◌, ◌<◌, ◌≤◌, ◌++◌, ◌==◌, ◌&&◌, ◌||◌, map, length, vec_len, Ok, IfOk, IfErr};
ghost use Rattle.std.specs.List.{list_any};
ghost use Rattle.std.specs.Option.{option_map};
ghost use Rattle.fmt_sort.specs.PieceParts.{parts_in};
ghost use Rattle.fmt_sort.specs.Pieces.{is_colon};
ghost use Rattle.fmt_sort.specs.Read.{pair_of};
ghost use Rattle.fmt_sort.specs.Reading as spec;
ghost use Rattle.fmt_sort.specs.Spec.{given_bound_of, given_of};

use crate::given::{GivenField, GivenLimit};
use crate::kind::Kind;
use crate::mark::{Mark, behind_mark};
use crate::piece::Piece;
use crate::sort_fault::SortFault;
use crate::sort_key::SortKey;
use crate::target::Target;
use std::alloc::Global;
use text_base::{OutOfMemory, size_of_bytes};

/// The base of sizes in limits.
const SIZE_BASE: u16 = 1024;

/// The fields that a name stands for.
fn target_of(name: &[u8]) -> Option<Target>
    ensures { result ≡ spec.target_of name.now }
{
    if name == "codec".as_bytes() {
        return Some(Target::Two(SortKey::VideoCodec, SortKey::AudioCodec));
    }
    if name == "ext".as_bytes() {
        return Some(Target::Two(SortKey::VideoExt, SortKey::AudioExt));
    }
    Some(Target::One(SortKey::named(name)?))
}

/// The limit that a text names for a field of a kind.
fn limit_of(kind: Kind, text: &[u8]) -> Option<GivenLimit>
    ensures { option_map given_bound_of result ≡ spec.limit_of kind text.now }
{
    match kind {
        Kind::FormatId => None,
        Kind::Listed(row) => Some(GivenLimit::Points {
            usual: row.limit_points(false, text),
            preferred: row.limit_points(true, text),
        }),
        _ => Some(GivenLimit::Number(size_of_bytes(text, SIZE_BASE)?)),
    }
}

/// The field of a key in a piece, with this text as its limit; an empty one is none.
fn field_of(piece: &Piece<'_>, key: SortKey, text: &[u8]) -> Option<GivenField>
    ensures { option_map given_of result
        ≡ spec.field_of piece.now.is_reversed piece.now.is_nearest key text.now }
{
    let is_reversed = piece.is_reversed;
    if text.is_empty() {
        return Some(GivenField {
            key,
            is_reversed,
            is_nearest: false,
            limit: None,
        });
    }
    Some(GivenField {
        key,
        is_reversed,
        is_nearest: piece.is_nearest,
        limit: Some(limit_of(key.kind(), text)?),
    })
}

fn has_colon(text: &[u8]) -> bool
    ensures { result ≡ list_any is_colon text.now }
{
    text.iter().any(|byte| *byte == b':')
}

/// Whether the limit of a piece is refused for a single field.
fn is_refused_for_one(piece: &Piece<'_>) -> bool
    ensures { result ≡ (list_any is_colon piece.now.limit.now
        || piece.now.is_nearest && length piece.now.limit.now == 0) }
{
    has_colon(piece.limit) || piece.is_nearest && piece.limit.is_empty()
}

/// Whether the limits of a piece are refused for two fields.
fn are_refused_for_two(is_nearest: bool, first: &[u8], second: &[u8]) -> bool
    ensures { result ≡ (list_any is_colon second.now
        || is_nearest && length first.now == 0 && length second.now == 0) }
{
    has_colon(second) || is_nearest && first.is_empty() && second.is_empty()
}

/// The field of a piece that names one.
fn one_field(piece: &Piece<'_>, key: SortKey) -> Option<(GivenField, Option<GivenField>)>
    ensures { option_map pair_of result ≡ spec.fields_by (parts_in piece.now) (Target.One key) }
{
    if is_refused_for_one(piece) {
        return None;
    }
    Some((field_of(piece, key, piece.limit)?, None))
}

/// The fields of a piece that names two.
fn two_fields(piece: &Piece<'_>, a: SortKey, b: SortKey) -> Option<(GivenField, Option<GivenField>)>
    ensures { option_map pair_of result
        ≡ spec.fields_by (parts_in piece.now) (Target.Two a b) }
{
    let (first, marked) = Mark::Colon.split(piece.limit);
    let second = behind_mark(marked);
    if are_refused_for_two(piece.is_nearest, first, second) {
        return None;
    }
    let a = field_of(piece, a, first)?;
    let b = field_of(piece, b, second)?;
    Some((a, Some(b)))
}

/// The fields of a piece, where its limit is not refused.
fn fields_by(piece: &Piece<'_>, target: Target) -> Option<(GivenField, Option<GivenField>)>
    ensures { option_map pair_of result ≡ spec.fields_by (parts_in piece.now) target }
{
    match target {
        Target::One(key) => one_field(piece, key),
        Target::Two(a, b) => two_fields(piece, a, b),
    }
}

/// The fields of piece `number`, or its fault.
fn read_piece(text: &[u8], number: usize) -> Result<(GivenField, Option<GivenField>), SortFault>
    ensures fields { IfOk result (λ p. spec.piece_given number text.now ≡ Ok (pair_of p)) }
    ensures fault { IfErr result (spec.IsFaultOf (spec.piece_given number text.now)) }
{
    let piece = Piece::new(text);
    let Some(target) = target_of(piece.name) else {
        return Err(SortFault::Field { piece: number });
    };
    match fields_by(&piece, target) {
        Some(fields) => Ok(fields),
        None => Err(SortFault::Limit { piece: number }),
    }
}

/// Puts the fields of a piece behind others.
fn push_pair(
    fields: &mut Vec<GivenField>,
    pair: (GivenField, Option<GivenField>),
) -> Result<(), OutOfMemory>
    ensures fields { IfOk result (λ _. map given_of fields.new.items
        ≡ map given_of fields.old.items ++ pair_of pair) }
    ensures longer { IfOk result (λ _. vec_len fields.old + 1 ≤ vec_len fields.new) }
{
    fields.push(pair.0)?;
    if let Some(second) = pair.1 {
        fields.push(second)?;
    }
    Ok(())
}

/// What the pieces of a word give, whose first has this number, and the number behind its last.
pub(crate) fn read_pieces(
    alloc: Global,
    word: &[u8],
    number: usize,
) -> Result<(Vec<GivenField>, usize), SortFault>
    requires { number < 2 ^ 63 }
    ensures fields { IfOk result (λ r.
        spec.pieces_given number (spec.pieces_of word.now) ≡ Ok (map given_of r.0.items)) }
    ensures next { IfOk result (λ r. r.1 ≡ number + length (spec.pieces_of word.now)) }
    ensures counted { IfOk result (λ r. r.1 ≤ number + vec_len r.0) }
    ensures fault { IfErr result (spec.IsFaultOf
        (spec.pieces_given number (spec.pieces_of word.now))) }
{
    let mut fields = Vec::new(alloc);
    let mut next = number;
    let mut start = 0;
    'pieces: loop {
        let rest = &word[start..];
        let end = Mark::Comma.place(rest);
        let pair = read_piece(&rest[..end], next)?;
        push_pair(&mut fields, pair)?;
        next += 1;
        if end == rest.len() {
            return Ok((fields, next));
        }
        start += end + 1;
    }
}
