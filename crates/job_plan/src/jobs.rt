//! The jobs of items, in three passes: each choice by itself, then which of them clash, then the pieces of those that are jobs.
ghost use Rattle.std.specs.Prelude.{◌≡◌, ◌+◌, ◌*◌, ◌<◌, ◌≤◌, ◌^◌, ◌++◌, ◌∷◌, [], All, IfOk, OnOk, Ok, Err, length, map};
ghost use Rattle.sel_eval.specs.Answer.{plain_combo};
ghost use Rattle.job_plan.specs.Jobs.{AreJobs, some_choice};
ghost use Rattle.job_plan.specs.Laws.{AllKept};
ghost use Rattle.job_plan.specs.Passes.{AreEntries, Adds, AddsItem};
ghost use Rattle.job_plan.specs.Outcome.{Gives};
ghost use Rattle.job_plan.specs.Views.{plain_plan, plain_drafting, plain_drafted, plain_draft, plain_outcome, plain_entry, HasNames, IsNamed};

use crate::clashes::all_met;
use crate::draft::{Draft, Drafted};
use crate::drafting::Drafting;
use crate::fault::JobFault;
use crate::fetchable::Fetchable;
use crate::finishing::finished;
use crate::job::JobOr;
use crate::options::PlanOptions;
use crate::stop::Stop;
use fmt_sort::sort_formats;
use info_item::{Combo, Item};
use sel_eval::{ChooseFault, choose};
use std::alloc::Global;
use text_base::OutOfMemory;

/// Adds an entry that has a fault.
fn push_fault(drafts: &mut Vec<Drafted>, item: usize, fault: JobFault) -> Result<(), OutOfMemory>
    ensures entries { OnOk result (map plain_drafted drafts.new.items
        ≡ map plain_drafted drafts.old.items ++ (record { item = item; outcome = Err fault }) ∷ []) }
    ensures exact { All HasNames drafts.old.items → OnOk result (All HasNames drafts.new.items) }
{
    drafts.push(Drafted {
        item,
        outcome: Err(fault),
    })?;
    Ok(())
}

/// What became of a choice, as it stands in the list.
fn settled(drafted: Result<Draft, Stop>) -> Result<Result<Draft, JobFault>, OutOfMemory>
    ensures outcome { (expected : _) → Gives plain_draft drafted expected → IfOk result (λ outcome. plain_outcome outcome ≡ expected) }
    ensures exact { IfOk drafted IsNamed → IfOk result (λ outcome. IfOk outcome IsNamed) }
{
    match drafted {
        Ok(draft) => Ok(Ok(draft)),
        Err(Stop::Fault(fault)) => Ok(Err(fault)),
        Err(Stop::OutOfMemory) => Err(OutOfMemory),
    }
}

/// Adds the entries of an item's choices. The number of each counts all entries before it.
fn add_choices(
    alloc: Global,
    drafting: &Drafting<'_>,
    place: usize,
    item: &Item<'_>,
    choices: Vec<Combo>,
    drafts: &mut Vec<Drafted>,
) -> Result<(), OutOfMemory>
    requires { drafting.now.options.now.first_number + (length drafts.old.items + length choices.items) < 2 ^ 63 }
    ensures entries { OnOk result (Adds (plain_drafting drafting.now) place item.now (map Ok (map plain_combo choices.items))
        (map plain_drafted drafts.old.items) (map plain_drafted drafts.new.items)) }
    ensures exact { All HasNames drafts.old.items → OnOk result (All HasNames drafts.new.items) }
{
    let mut fetchable = Fetchable::new(alloc, item.formats())?;
    for combo in choices {
        let number = drafting.options.first_number + drafts.len() as u64;
        let drafted = drafting.drafted(alloc, item, &mut fetchable, combo, number);
        let outcome = settled(drafted)?;
        drafts.push(Drafted {
            item: place,
            outcome,
        })?;
    }
    Ok(())
}

/// The same, and where there is no choice an entry that says so.
fn add_some(
    alloc: Global,
    drafting: &Drafting<'_>,
    place: usize,
    item: &Item<'_>,
    choices: Vec<Combo>,
    drafts: &mut Vec<Drafted>,
) -> Result<(), OutOfMemory>
    requires { drafting.now.options.now.first_number + (length drafts.old.items + length choices.items) < 2 ^ 63 }
    ensures entries { OnOk result (Adds (plain_drafting drafting.now) place item.now (some_choice (map plain_combo choices.items))
        (map plain_drafted drafts.old.items) (map plain_drafted drafts.new.items)) }
    ensures exact { All HasNames drafts.old.items → OnOk result (All HasNames drafts.new.items) }
{
    if choices.is_empty() {
        return push_fault(drafts, place, JobFault::NoFormat);
    }
    add_choices(alloc, drafting, place, item, choices, drafts)
}

/// Adds the entries of an item.
fn add_item(
    alloc: Global,
    drafting: &Drafting<'_>,
    place: usize,
    item: &Item<'_>,
    drafts: &mut Vec<Drafted>,
) -> Result<(), OutOfMemory>
    requires { drafting.now.options.now.first_number + (length drafts.old.items + 10000) < 2 ^ 63 }
    ensures entries { OnOk result (AddsItem (plain_drafting drafting.now) place item.now
        (map plain_drafted drafts.old.items) (map plain_drafted drafts.new.items)) }
    ensures few { OnOk result (length drafts.new.items ≤ length drafts.old.items + 10000) }
    ensures exact { All HasNames drafts.old.items → OnOk result (All HasNames drafts.new.items) }
{
    let options = drafting.options;
    let order = sort_formats(alloc, &options.sort, item)?;
    match choose(alloc, &options.sel, item, &order, &options.streams) {
        Ok(choices) => add_some(alloc, drafting, place, item, choices, drafts),
        Err(ChooseFault::TooMany) => push_fault(drafts, place, JobFault::TooMany),
        Err(ChooseFault::OutOfMemory) => Err(OutOfMemory),
    }
}

/// The entries of items, each by itself.
fn all_drafts(
    alloc: Global,
    items: &[Item<'_>],
    options: &PlanOptions,
) -> Result<Vec<Drafted>, OutOfMemory>
    requires { options.now.first_number + 10000 * length items.now < 2 ^ 63 }
    ensures entries { IfOk result (λ v. AreEntries (plain_plan options.now) items.now (map plain_drafted v.items)) }
    ensures exact { IfOk result (λ v. All HasNames v.items) }
    ensures within { IfOk result (λ v. All (λ d. d.item < length items.now) v.items) }
{
    let drafting = Drafting::new(alloc, options)?;
    let mut drafts = Vec::new(alloc);
    for (place, item) in items.iter().enumerate() {
        add_item(alloc, &drafting, place, item, &mut drafts)?;
    }
    Ok(drafts)
}

/// The jobs of items: for each choice of each item, in order, a job or its first fault.
///
/// A choice is numbered by its place among all entries, from `first_number` on. No two jobs share a name; of two choices whose families meet
/// the later one is a fault that names the earlier.
pub fn make_jobs(
    alloc: Global,
    items: &Vec<Item<'_>>,
    options: &PlanOptions,
) -> Result<Vec<JobOr>, OutOfMemory>
    requires { options.now.first_number + 10000 * length items.now.items < 2 ^ 63 }
    ensures jobs { IfOk result (λ v. AreJobs (plain_plan options.now) items.now.items (map plain_entry v.items)) }
    ensures kept { IfOk result (λ v. AllKept (map plain_entry v.items)) }
{
    let drafts = all_drafts(alloc, items, options)?;
    let met = all_met(alloc, &drafts)?;
    finished(alloc, items, drafts, &met)
}
