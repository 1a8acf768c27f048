//! Entries with the pieces of those that are jobs.
ghost use Rattle.std.specs.Prelude.{◌≡◌, ◌<◌, All, IfOk, length, map};
ghost use Rattle.job_plan.specs.Jobs as spec;
ghost use Rattle.job_pieces.specs.Kept.{AreKept};
ghost use Rattle.job_pieces.specs.Views.{plain_component};
ghost use Rattle.job_plan.specs.Laws.{AllKept, EntryKept};
ghost use Rattle.job_plan.specs.Passes.{all_settled, settled, settled_entry};
ghost use Rattle.job_plan.specs.Views.{plain_draft, plain_drafted, plain_entry, plain_job, plain_outcome};

use crate::draft::{Draft, Drafted};
use crate::fault::{ClashWith, JobFault};
use crate::job::{Job, JobOr};
use info_item::{Format, Item};
use job_pieces::{Component, fragments_of, parts_of, pieces_of};
use std::alloc::Global;
use text_base::{OutOfMemory, Text};

/// The file of a part, with its pieces.
fn component(alloc: Global, name: Text, part: &Format<'_>) -> Result<Component, OutOfMemory>
    ensures component { IfOk result (λ c. plain_component c ≡ spec.component_of name part.now) }
    ensures kept { IfOk result (λ c. AreKept (plain_component c)) }
{
    let pieces = match pieces_of(alloc, part.tree())? {
        Some(pieces) => pieces,
        None => Vec::new(alloc),
    };
    Ok(Component {
        name,
        pieces,
        fragments: fragments_of(part.tree()).is_some(),
    })
}

/// The files of parts.
fn components(
    alloc: Global,
    names: Vec<Text>,
    parts: &[&Format<'_>],
) -> Result<Vec<Component>, OutOfMemory>
    ensures components { IfOk result (λ v. map plain_component v.items ≡ spec.components_of names.items (map (λ f. f.now) parts.now)) }
    ensures kept { IfOk result (λ v. All AreKept (map plain_component v.items)) }
{
    let mut components = Vec::with_capacity(alloc, names.len())?;
    for (name, part) in names.into_iter().zip(parts) {
        components.push(component(alloc, name, part)?)?;
    }
    Ok(components)
}

/// The job of a draft.
fn job_of(
    alloc: Global,
    item: usize,
    formats: &[Format<'_>],
    draft: Draft,
) -> Result<Job, OutOfMemory>
    ensures job { IfOk result (λ j. plain_job j ≡ spec.job_of item formats.now (plain_draft draft)) }
    ensures kept { IfOk result (λ j. All AreKept (plain_job j).components) }
{
    let Draft {
        name: _,
        combo,
        final_name,
        components: names,
        steps,
        execs,
        printed,
        exact: _,
    } = draft;
    let parts = parts_of(alloc, formats, &combo.parts)?;
    Ok(Job {
        item,
        components: components(alloc, names, &parts)?,
        combo,
        final_name,
        steps,
        execs,
        printed,
    })
}

/// What becomes of an outcome that meets the job at this place.
fn settled(outcome: Result<Draft, JobFault>, met: Option<usize>) -> Result<Draft, JobFault>
    ensures { plain_outcome result ≡ settled (plain_outcome outcome) met }
{
    let draft = outcome?;
    match met {
        Some(place) => Err(JobFault::Clash {
            with: ClashWith::Job(place),
        }),
        None => Ok(draft),
    }
}

/// An entry with its pieces.
fn entry(
    alloc: Global,
    items: &[Item<'_>],
    drafted: Drafted,
    met: Option<usize>,
) -> Result<JobOr, OutOfMemory>
    requires { drafted.item < length items.now }
    ensures entry { IfOk result (λ e. plain_entry e ≡ spec.finished items.now (settled_entry (plain_drafted drafted) met)) }
    ensures kept { IfOk result (λ e. EntryKept (plain_entry e)) }
{
    let Drafted { item, outcome } = drafted;
    match settled(outcome, met) {
        Ok(draft) => {
            let job = job_of(alloc, item, items[item].formats(), draft)?;
            Ok(JobOr::Job(job))
        }
        Err(fault) => Ok(JobOr::Fault { item, fault }),
    }
}

/// Entries with their pieces, each with the job that it meets.
pub(crate) fn finished(
    alloc: Global,
    items: &[Item<'_>],
    drafts: Vec<Drafted>,
    met: &[Option<usize>],
) -> Result<Vec<JobOr>, OutOfMemory>
    requires { All (λ d. d.item < length items.now) drafts.items }
    ensures entries { IfOk result (λ v. map plain_entry v.items
        ≡ map (spec.finished items.now) (all_settled (map plain_drafted drafts.items) met.now)) }
    ensures kept { IfOk result (λ v. AllKept (map plain_entry v.items)) }
{
    let mut entries = Vec::with_capacity(alloc, drafts.len())?;
    for (drafted, met) in drafts.into_iter().zip(met) {
        entries.push(entry(alloc, items, drafted, *met)?)?;
    }
    Ok(entries)
}
