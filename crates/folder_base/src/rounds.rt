//! A time with parts out, made again.
ghost use Rattle.std.specs.Prelude.{◌≡◌, [], ◌∷◌, map, OnOk, IfOk};
ghost use Rattle.folder_base.specs.Disk.{Disk};
ghost use Rattle.folder_base.specs.Log.{rejoined};
ghost use Rattle.folder_base.specs.Parts.{AreApart, inside};
ghost use Rattle.folder_base.specs.Places.{steps_in};
ghost use Rattle.folder_base.specs.Rejoin.{JoinsPart, JoinsParts};
ghost use Rattle.folder_base.specs.Story.{Story};
ghost use Rattle.folder_base.specs.Undo.{IsReplayed};

use crate::index::{Index, index_of};
use crate::place::Place;
use crate::replay::{Replay, make_all};
use crate::starts::hand_out;
use crate::step::Step;
use std::alloc::Global;
use text_base::{OutOfMemory, Text};

/// Makes again what a folder did while it had these parts out, and what each of them did.
pub(crate) fn make_round(
    alloc: Global,
    replay: &mut Replay,
    stems: &Vec<Text>,
    rest: &Vec<Step>,
    parts: &Vec<&Vec<Step>>,
) -> Result<(), OutOfMemory>
    requires { AreApart stems.now.items }
    ensures { OnOk result
        ((before : Story) → IsReplayed before.now replay.old
        → IsReplayed (rejoined before stems.now.items rest.now.items
        (map (λ steps. steps.now.items) parts.now.items)).story.now replay.new) }
{
    let index = index_of(alloc, stems)?;
    let starts = hand_out(alloc, replay, &index, stems)?;
    make_all(alloc, replay, rest)?;
    if !replay.is_of(&index, None) {
        return Err(OutOfMemory);
    }
    join_parts(alloc, replay, &index, starts, parts)?;
    Ok(())
}

/// The names of a part alone.
pub(crate) fn part_of(alloc: Global, mut replay: Replay, stem: &Text) -> Result<Replay, OutOfMemory>
    ensures { IfOk result
        (λ part. (disk : Disk) → IsReplayed disk replay → IsReplayed (inside stem.now disk) part) }
{
    let stems = one_stem(alloc, stem)?;
    let index = index_of(alloc, &stems)?;
    let mut starts = hand_out(alloc, &mut replay, &index, &stems)?;
    match starts.pop() {
        Some(start) => Ok(start),
        None => Err(OutOfMemory),
    }
}

fn one_stem(alloc: Global, stem: &Text) -> Result<Vec<Text>, OutOfMemory>
    ensures { IfOk result (λ stems. stems.items ≡ stem.now ∷ []) }
{
    let mut stems = Vec::new(alloc);
    stems.push(Text::new(alloc, stem.as_str())?)?;
    Ok(stems)
}

/// The steps of each part.
pub(crate) fn part_steps(
    alloc: Global,
    parts: &Vec<Vec<Step>>,
) -> Result<Vec<&Vec<Step>>, OutOfMemory>
    ensures { IfOk result
        (λ lists. map (λ steps. steps.now.items) lists.items
        ≡ map (λ steps. steps.items) parts.now.items) }
{
    let mut lists = Vec::with_capacity(alloc, parts.len())?;
    for steps in parts {
        lists.push(steps)?;
    }
    Ok(lists)
}

/// The steps of each part that is back.
pub(crate) fn place_steps(
    alloc: Global,
    places: &Vec<Place>,
) -> Result<Vec<&Vec<Step>>, OutOfMemory>
    ensures { IfOk result
        (λ lists. map (λ steps. steps.now.items) lists.items ≡ steps_in places.now.items) }
{
    let mut lists = Vec::with_capacity(alloc, places.len())?;
    for place in places {
        lists.push(&place.steps)?;
    }
    Ok(lists)
}

// Makes again what each part did, and puts it behind the others.
fn join_parts(
    alloc: Global,
    replay: &mut Replay,
    index: &Index,
    starts: Vec<Replay>,
    parts: &Vec<&Vec<Step>>,
) -> Result<(), OutOfMemory>
    ensures { OnOk result
        (JoinsParts index.now starts.items (map (λ steps. steps.now.items) parts.now.items)
        replay.old replay.new) }
{
    let mut starts = starts.into_iter();
    for (at, steps) in parts.iter().enumerate() {
        let Some(start) = starts.next() else {
            break;
        };
        join_part(alloc, replay, index, at, start, steps)?;
    }
    Ok(())
}

// Makes again what one part did, and puts it behind the others.
fn join_part(
    alloc: Global,
    replay: &mut Replay,
    index: &Index,
    at: usize,
    start: Replay,
    steps: &Vec<Step>,
) -> Result<(), OutOfMemory>
    ensures { OnOk result
        (JoinsPart index.now at start steps.now.items replay.old replay.new) }
{
    let mut part = start;
    make_all(alloc, &mut part, steps)?;
    if !part.is_of(index, Some(at)) {
        return Err(OutOfMemory);
    }
    replay.join(alloc, part)?;
    Ok(())
}
