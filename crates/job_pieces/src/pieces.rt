//! The pieces of a format.
ghost use Rattle.std.specs.Prelude.{◌≡◌, ◌<◌, [], ◌∷◌, IfOk, IfSome, All, Some, codes, is_some, length, map, option_map, slice_get};
ghost use Rattle.info_item.specs.Fields.{text_at};
ghost use Rattle.info_tree.specs.Plain.{plain};
ghost use Rattle.job_pieces.specs.Kept.{IsKept};
ghost use Rattle.job_pieces.specs.Pieces as spec;
ghost use Rattle.job_pieces.specs.Views.{plain_piece};

use crate::parts::{fragments_of, text_at, tree_at};
use crate::urls::{base_url, fragment_url, has_url, kept_url};
use info_tree::{Tree, TreeList, TreeMap};
use link_http::{Header, Piece};
use std::alloc::Global;
use text_base::{OutOfMemory, Text};

/// The most fragments of a format.
const MOST_FRAGMENTS: usize = 20_000;

/// Whether there are neither none nor too many.
fn is_list_to_fetch(fragments: &TreeList) -> bool
    ensures { result ≡ spec.is_list_to_fetch fragments.now }
{
    1 <= fragments.len() && fragments.len() <= MOST_FRAGMENTS
}

/// The pair at a place.
fn pair_at(pairs: &TreeMap, place: usize) -> (&str, &Tree)
    requires { place < length pairs.now }
    ensures { slice_get pairs.now place ≡ Some (result.0.now, plain result.1.now) }
{
    pairs.pair(place).unwrap()
}

/// The pairs whose values are texts.
fn text_pairs(alloc: Global, pairs: &TreeMap) -> Result<Vec<Header>, OutOfMemory>
    ensures { IfOk result (λ v. map (λ h. (h.name, h.value)) v.items ≡ spec.text_pairs pairs.now) }
{
    let mut headers = Vec::new(alloc);
    for place in 0..pairs.len() {
        let (name, value) = pair_at(pairs, place);
        if let Some(value) = value.as_text() {
            headers.push(Header {
                name: Text::new(alloc, name)?,
                value: Text::new(alloc, value)?,
            })?;
        }
    }
    Ok(headers)
}

/// The pairs of a format's headers, where it has a map of them.
fn header_pairs(format: &Tree) -> Option<&TreeMap>
    ensures { option_map (λ pairs. pairs.now) result ≡ spec.header_pairs (plain format.now) }
{
    match format.get("http_headers") {
        Some(Tree::Map(pairs)) => Some(pairs),
        _ => None,
    }
}

/// The fields that are sent for a format.
fn headers_of(alloc: Global, format: &Tree) -> Result<Vec<Header>, OutOfMemory>
    ensures { IfOk result (λ v. map (λ h. (h.name, h.value)) v.items ≡ spec.headers_of (plain format.now)) }
{
    match header_pairs(format) {
        Some(pairs) => text_pairs(alloc, pairs),
        None => Ok(Vec::new(alloc)),
    }
}

/// A piece of a format.
fn piece_of(alloc: Global, format: &Tree, url: Text) -> Result<Piece, OutOfMemory>
    ensures { IfOk result (λ p. plain_piece p ≡ spec.piece_of (plain format.now) url) }
{
    Ok(Piece {
        url,
        headers: headers_of(alloc, format)?,
    })
}

/// The piece of a format without fragments.
fn own_piece(alloc: Global, format: &Tree) -> Result<Option<Vec<Piece>>, OutOfMemory>
    ensures pieces { IfOk result (λ p. option_map (λ v. map plain_piece v.items) p
        ≡ option_map (λ url. map (spec.piece_of (plain format.now)) (spec.kept_url url ∷ [])) (text_at (plain format.now) (codes "url"))) }
    ensures kept { IfOk result (λ p. IfSome p (λ v. All (λ piece. IsKept piece.url) v.items)) }
{
    let Some(url) = text_at(format, "url") else {
        return Ok(None);
    };
    let mut pieces = Vec::with_capacity(alloc, 1)?;
    pieces.push(piece_of(alloc, format, kept_url(alloc, url)?)?)?;
    Ok(Some(pieces))
}

/// The pieces of a format's fragments.
fn fragment_pieces(
    alloc: Global,
    format: &Tree,
    fragments: &TreeList,
) -> Result<Option<Vec<Piece>>, OutOfMemory>
    ensures pieces { IfOk result (λ p. option_map (λ v. map plain_piece v.items) p
        ≡ option_map (map (spec.piece_of (plain format.now))) (spec.urls_by (plain format.now) (Some fragments.now))) }
    ensures kept { IfOk result (λ p. IfSome p (λ v. All (λ piece. IsKept piece.url) v.items)) }
{
    if !is_list_to_fetch(fragments) {
        return Ok(None);
    }
    let base = base_url(alloc, format)?;
    let mut pieces = Vec::with_capacity(alloc, fragments.len())?;
    for place in 0..fragments.len() {
        let Some(url) = fragment_url(alloc, &base, tree_at(fragments, place))? else {
            return Ok(None);
        };
        pieces.push(piece_of(alloc, format, url)?)?;
    }
    Ok(Some(pieces))
}

/// The pieces of a format; none where it can't be fetched.
#[tactic(auto, unfolding(crate::specs::Pieces::pieces_of))]
pub fn pieces_of(alloc: Global, format: &Tree) -> Result<Option<Vec<Piece>>, OutOfMemory>
    ensures pieces { IfOk result (λ p. option_map (λ v. map plain_piece v.items) p ≡ spec.pieces_of (plain format.now)) }
    ensures kept { IfOk result (λ p. IfSome p (λ v. All (λ piece. IsKept piece.url) v.items)) }
{
    match fragments_of(format) {
        Some(fragments) => fragment_pieces(alloc, format, fragments),
        None => own_piece(alloc, format),
    }
}

/// Whether each fragment has a URL.
fn have_urls(alloc: Global, format: &Tree, fragments: &TreeList) -> Result<bool, OutOfMemory>
    ensures { IfOk result (λ have. have ≡ is_some (spec.urls_by (plain format.now) (Some fragments.now))) }
{
    if !is_list_to_fetch(fragments) {
        return Ok(false);
    }
    let base = base_url(alloc, format)?;
    for place in 0..fragments.len() {
        if !has_url(&base, tree_at(fragments, place))? {
            return Ok(false);
        }
    }
    Ok(true)
}

/// Whether a format can be fetched.
#[tactic(auto, unfolding(crate::specs::Pieces::pieces_of))]
pub fn can_be_fetched(alloc: Global, format: &Tree) -> Result<bool, OutOfMemory>
    ensures { IfOk result (λ can. can ≡ is_some (spec.pieces_of (plain format.now))) }
{
    match fragments_of(format) {
        Some(fragments) => have_urls(alloc, format, fragments),
        None => Ok(text_at(format, "url").is_some()),
    }
}
