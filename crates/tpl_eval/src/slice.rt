//! Slices, as Python takes them.
ghost use Rattle.std.specs.Prelude.{◌≡◌, ◌≤◌, ◌<◌, ◌^◌, length, reverse, IfOk};
ghost use Rattle.tpl_eval.specs.Slice as spec;

use std::alloc::Global;
use text_base::OutOfMemory;
use tpl_lang::Slice;

/// A bound over so many places, from the end where it is negative, and within them.
fn bound(count: usize, place: i64) -> usize
    ensures value { result ≡ spec.bound count place }
    ensures within { result ≤ count }
{
    let far = place.unsigned_abs() as usize;
    if place < 0 {
        count.saturating_sub(far)
    } else {
        far.min(count)
    }
}

/// The bound behind the place that a number names.
fn behind(count: usize, place: i64) -> usize
    ensures value { result ≡ spec.behind count place }
    ensures within { result ≤ count }
{
    let far = place.unsigned_abs() as usize;
    if place < 0 {
        count.saturating_sub(far - 1)
    } else {
        (far + 1).min(count)
    }
}

/// The first item, and each further one that so many were passed over before.
fn every<T: Copy>(alloc: Global, items: &[T], gap: u64) -> Result<Vec<T>, OutOfMemory>
    ensures { IfOk result (λ kept. kept.items ≡ spec.every gap 0 items.now) }
{
    let mut kept = Vec::new(alloc);
    let mut wait = 0;
    for item in items {
        if wait == 0 {
            kept.push(*item)?;
            wait = gap;
        } else {
            wait -= 1;
        }
    }
    Ok(kept)
}

/// The items from a bound to before another.
fn between<T>(items: &[T], low: usize, high: usize) -> &[T]
    requires { high ≤ length items.now }
    ensures { result.now ≡ spec.between low high items.now }
{
    if low < high { &items[low..high] } else { &[] }
}

/// A slice from the front.
fn forward<T: Copy>(
    alloc: Global,
    items: &[T],
    slice: &Slice,
    gap: u64,
) -> Result<Vec<T>, OutOfMemory>
    ensures { IfOk result (λ kept. kept.items ≡ spec.forward gap slice.now items.now) }
{
    let count = items.len();
    let low = match slice.from {
        Some(place) => bound(count, place),
        None => 0,
    };
    let high = match slice.to {
        Some(place) => bound(count, place),
        None => count,
    };
    every(alloc, between(items, low, high), gap)
}

/// A slice from the end.
fn backward<T: Copy>(
    alloc: Global,
    items: &[T],
    slice: &Slice,
    gap: u64,
) -> Result<Vec<T>, OutOfMemory>
    ensures { IfOk result (λ kept. kept.items ≡ spec.backward gap slice.now items.now) }
{
    let count = items.len();
    let low = match slice.to {
        Some(place) => behind(count, place),
        None => 0,
    };
    let high = match slice.from {
        Some(place) => behind(count, place),
        None => count,
    };
    let mut turned = Vec::from_slice(alloc, between(items, low, high))?;
    turned.reverse();
    every(alloc, &turned, gap)
}

/// The items of a slice, in its order.
pub(crate) fn sliced<T: Copy>(
    alloc: Global,
    items: &[T],
    slice: &Slice,
) -> Result<Vec<T>, OutOfMemory>
    ensures { IfOk result (λ kept. kept.items ≡ spec.sliced slice.now items.now) }
{
    let step = slice.step.unwrap_or(1);
    if step < 0 {
        backward(alloc, items, slice, step.unsigned_abs() - 1)
    } else {
        forward(alloc, items, slice, step.unsigned_abs().saturating_sub(1))
    }
}
