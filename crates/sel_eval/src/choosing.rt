ghost use Rattle.std.specs.Prelude.{◌≡◌, ◌≤◌, IfOk, IfErr, map, length, false};
ghost use Rattle.std.specs.List.{range_with_len, list_any};
ghost use Rattle.std.specs.List.Sorted.{IsPermutation};
ghost use Rattle.info_item.specs.Fields.{has_video_of, has_audio_of};
ghost use Rattle.sel_lang.specs.View.{plain};
ghost use Rattle.sel_lang.specs.declared.sel.Sel.{size-Sel};
ghost use Rattle.sel_eval.specs.Answer.{Answers, have_both, plain_combo, combo_of, combos, is_large, IsFaultOf};
ghost use Rattle.sel_eval.specs.Den.{den, large};
ghost use Rattle.sel_eval.specs.Parts.{list_of, first_of, merge_of, IsSamePart};

use crate::choice::Choice;
use crate::choose_fault::ChooseFault;
use crate::ext::ext_of;
use crate::meeting::meeting;
use crate::merging::Merging;
use crate::picking::{MOST, picked};
use crate::placed::{Placed, at_places};
use crate::policy::Policy;
use crate::streams::Streams;
use info_item::{Combo, Format, Item};
use sel_lang::Sel;
use std::alloc::Global;
use text_base::{OutOfMemory, Text};

/// The choices of a selector, over formats from best to worst.
#[cycle(choose)]
fn choices_of<'a>(
    alloc: Global,
    policy: &Policy<'_>,
    sel: &Sel,
    formats: &[Placed<'a>],
) -> Result<Vec<Choice<'a>>, ChooseFault>
    ensures { Answers result
        (den policy.now.streams.now policy.now.both (plain sel.now) formats.entry.now)
        (large policy.now.streams.now policy.now.both (plain sel.now) formats.entry.now) }
{
    match sel {
        Sel::List(parts) => list(alloc, policy, parts, formats),
        Sel::First(parts) => first(alloc, policy, parts, formats),
        Sel::Merge(parts) => merge(alloc, policy, parts, formats),
        Sel::Narrow(inner, filter) => {
            let left = meeting(alloc, filter, formats)?;
            let (inner, left) = narrowed(alloc, inner, left)?;
            choices_of(alloc, policy, inner, &left)
        }
        Sel::Name(pick) => picked(alloc, policy, pick, formats),
    }
}

/// The choices of parts, one after the other.
#[cycle(choose)]
fn list<'a>(
    alloc: Global,
    policy: &Policy<'_>,
    parts: &[Sel],
    formats: &[Placed<'a>],
) -> Result<Vec<Choice<'a>>, ChooseFault>
    ensures { Answers result
        (den policy.now.streams.now policy.now.both (list_of parts.now) formats.entry.now)
        (large policy.now.streams.now policy.now.both (list_of parts.now) formats.entry.now) }
{
    let mut all = Vec::new(alloc);
    for part in parts {
        let mut choices = choices_of(alloc, policy, part, formats)?;
        if choices.len() > MOST - all.len() {
            return Err(ChooseFault::TooMany);
        }
        all.append(&mut choices)?;
    }
    Ok(all)
}

/// The choices of the first part that has one.
#[cycle(choose)]
fn first<'a>(
    alloc: Global,
    policy: &Policy<'_>,
    parts: &[Sel],
    formats: &[Placed<'a>],
) -> Result<Vec<Choice<'a>>, ChooseFault>
    ensures { Answers result
        (den policy.now.streams.now policy.now.both (first_of parts.now) formats.entry.now)
        (large policy.now.streams.now policy.now.both (first_of parts.now) formats.entry.now) }
{
    for part in parts {
        let choices = choices_of(alloc, policy, part, formats)?;
        if !choices.is_empty() {
            return Ok(choices);
        }
    }
    Ok(Vec::new(alloc))
}

/// The choices of the parts merged.
#[cycle(choose)]
fn merge<'a>(
    alloc: Global,
    policy: &Policy<'_>,
    parts: &[Sel],
    formats: &[Placed<'a>],
) -> Result<Vec<Choice<'a>>, ChooseFault>
    ensures { Answers result
        (den policy.now.streams.now policy.now.both (merge_of parts.now) formats.entry.now)
        (large policy.now.streams.now policy.now.both (merge_of parts.now) formats.entry.now) }
{
    let mut merging = Merging::new(alloc)?;
    for part in parts {
        let choices = choices_of(alloc, policy, part, formats)?;
        merging = merging.with(alloc, policy.streams, &choices)?;
    }
    merging.end()
}

/// What stands behind a chain of filters, and the formats that meet them all.
fn narrowed<'s, 'a>(
    alloc: Global,
    sel: &'s Sel,
    formats: Vec<Placed<'a>>,
) -> Result<(&'s Sel, Vec<Placed<'a>>), OutOfMemory>
    ensures same { IfOk result (λ r. IsSamePart (plain r.0.now) r.1.items (plain sel.entry.now) formats.entry.items) }
    ensures within { IfOk result (λ r. size-Sel r.0.now ≤ size-Sel sel.entry.now) }
{
    let mut sel = sel;
    let mut left = formats;
    while let Sel::Narrow(inner, filter) = sel {
        left = meeting(alloc, filter, &left)?;
        sel = inner;
    }
    Ok((sel, left))
}

/// Whether of some formats some have video and some have audio.
fn have_both(formats: &[Format<'_>]) -> bool
    ensures { result ≡ have_both formats.now }
{
    have_video(formats) && have_audio(formats)
}

fn have_video(formats: &[Format<'_>]) -> bool
    ensures { result ≡ list_any (λ f. has_video_of f.tree) formats.now }
{
    formats.iter().any(|format| format.has_video())
}

fn have_audio(formats: &[Format<'_>]) -> bool
    ensures { result ≡ list_any (λ f. has_audio_of f.tree) formats.now }
{
    formats.iter().any(|format| format.has_audio())
}

/// The combination that a choice is.
fn combo_of(alloc: Global, streams: &Streams, choice: &Choice<'_>) -> Result<Combo, OutOfMemory>
    ensures { IfOk result (λ c. plain_combo c ≡ combo_of streams.now choice.now) }
{
    let parts = choice.parts();
    let places = parts.iter().map(|part| part.place()).collect(alloc)?;
    Ok(Combo {
        parts: places,
        ext: Text::new(alloc, ext_of(streams, parts))?,
    })
}

/// The combinations that a selector stands for. `order` lists the formats' places, from best to worst.
pub fn choose(
    alloc: Global,
    sel: &Sel,
    item: &Item<'_>,
    order: &Vec<usize>,
    streams: &Streams,
) -> Result<Vec<Combo>, ChooseFault>
    requires { IsPermutation (range_with_len 0 (length item.now.formats)) order.now.items }
    ensures choices { IfOk result (λ v. map plain_combo v.items ≡ combos streams.now item.now order.now.items (plain sel.now)) }
    ensures few { IfOk result (λ _. is_large streams.now item.now order.now.items (plain sel.now) ≡ false) }
    ensures many { IfErr result (IsFaultOf (is_large streams.now item.now order.now.items (plain sel.now))) }
{
    let formats = at_places(alloc, item.formats(), order)?;
    let policy = Policy {
        streams,
        both: have_both(item.formats()),
    };
    let mut combos = Vec::new(alloc);
    for choice in &choices_of(alloc, &policy, sel, &formats)? {
        combos.push(combo_of(alloc, streams, choice)?)?;
    }
    Ok(combos)
}
