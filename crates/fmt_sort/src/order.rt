//! The order of formats by a sort specification.

ghost use Rattle.std.specs.Prelude.{◌≡◌, map, length, reverse, IfOk};
ghost use Rattle.fmt_sort.specs.Order as order;
ghost use Rattle.fmt_sort.specs.Ranked.{AreRanked};
ghost use Rattle.fmt_sort.specs.Spec.{wanted_of, wish_of};
ghost use Rattle.fmt_sort.specs.ValueParts.{plain_rank};

use crate::rank::{Rank, rank_of};
use crate::sort_field::SortField;
use crate::sort_spec::SortSpec;
use crate::value::value_of;
use info_item::{Format, Item};
use std::alloc::Global;
use std::cmp::Ordering;
use text_base::OutOfMemory;

/// A format's ranks and its place.
#[derive(Debug, PartialEq, Eq, PartialOrd, Ord, Drop)]
struct Ranked<'a> {
    ranks: Vec<Rank<'a>>,
    place: usize,
}

/// The rank of a format in one field.
fn rank_in<'a>(free: bool, format: &'a Format<'_>, field: &SortField) -> Rank<'a>
    ensures { plain_rank result ≡ order.rank_in free format.entry.now (wanted_of field.now) }
{
    rank_of(field, value_of(free, format, field.key.kind()))
}

/// The ranks of a format, field by field.
fn ranks_of<'a>(
    alloc: Global,
    spec: &SortSpec,
    format: &'a Format<'_>,
) -> Result<Vec<Rank<'a>>, OutOfMemory>
    ensures { IfOk result (λ v. map plain_rank v.items
        ≡ order.ranks_of (wish_of spec.now) format.entry.now) }
{
    let mut ranks = Vec::with_capacity(alloc, spec.fields.len())?;
    for field in &spec.fields {
        ranks.push(rank_in(spec.free, format, field))?;
    }
    Ok(ranks)
}

/// The formats with their ranks, in the order of the file.
fn with_ranks<'a>(
    alloc: Global,
    spec: &SortSpec,
    formats: &'a [Format<'_>],
) -> Result<Vec<Ranked<'a>>, OutOfMemory>
    ensures { IfOk result (λ v. AreRanked (wish_of spec.now) formats.entry.now (length formats.entry.now) v.items) }
{
    let mut ranked = Vec::with_capacity(alloc, formats.len())?;
    for (place, format) in formats.iter().enumerate() {
        let ranks = ranks_of(alloc, spec, format)?;
        ranked.push(Ranked { ranks, place })?;
    }
    Ok(ranked)
}

/// The places of ranked formats, from the last to the first.
fn places_of(alloc: Global, ranked: &[Ranked<'_>]) -> Result<Vec<usize>, OutOfMemory>
    ensures { IfOk result (λ v. v.items ≡ map (λ r. r.place) (reverse ranked.now)) }
{
    let places = ranked.iter().rev().map(|format| format.place);
    Ok(places.collect(alloc)?)
}

/// How two formats compare; Greater says that `a` is better.
pub fn rank_cmp(spec: &SortSpec, a: &Format<'_>, b: &Format<'_>) -> Ordering
    ensures { result ≡ order.compared (wish_of spec.now) a.now b.now }
{
    for field in &spec.fields {
        let order = rank_in(spec.free, a, field).compared(&rank_in(spec.free, b, field));
        if order.is_ne() {
            return order;
        }
    }
    Ordering::Equal
}

/// The places of an item's formats from best to worst; of equal ones the later is better.
pub fn sort_formats(
    alloc: Global,
    spec: &SortSpec,
    item: &Item<'_>,
) -> Result<Vec<usize>, OutOfMemory>
    ensures { IfOk result (λ v. order.IsBestFirst (wish_of spec.now) item.now.formats v.items) }
{
    let mut ranked = with_ranks(alloc, spec, item.formats())?;
    ranked.sort_unstable();
    places_of(alloc, &ranked)
}
