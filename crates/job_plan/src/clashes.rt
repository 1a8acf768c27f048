//! Which choices clash with earlier jobs.
ghost use Rattle.std.specs.Prelude.{◌≡◌, ◌+◌, ◌++◌, ◌∷◌, [], All, IfOk, OnOk, map};
ghost use Rattle.job_plan.specs.Passes.{all_met, met_at, settled_entry, Follows};
ghost use Rattle.job_plan.specs.Views.{plain_drafted, plain_outcome, HasNames};

use crate::draft::Drafted;
use job_names::NameIndex;
use std::alloc::Global;
use text_base::OutOfMemory;

/// The earlier job that an entry meets. Where there is none, and the entry is a draft, it is a job and its names are added.
fn met<'a>(
    index: &mut NameIndex<'a>,
    place: usize,
    entry: &'a Drafted,
) -> Result<Option<usize>, OutOfMemory>
    requires { HasNames entry.now }
    ensures index { (earlier : _) → Follows earlier place index.old
        → OnOk result (Follows (earlier ++ settled_entry (plain_drafted entry.entry.now) (met_at earlier (plain_outcome entry.entry.now.outcome)) ∷ []) (place + 1) index.new) }
    ensures met { (earlier : _) → Follows earlier place index.old
        → IfOk result (λ met. met ≡ met_at earlier (plain_outcome entry.entry.now.outcome)) }
{
    let Ok(draft) = &entry.outcome else {
        return Ok(None);
    };
    if let Some(job) = index.first_met(&draft.exact, &draft.components) {
        return Ok(Some(job));
    }
    index.add(place, &draft.exact, &draft.components)?;
    Ok(None)
}

/// For each entry the earlier job that it meets.
pub(crate) fn all_met(alloc: Global, entries: &[Drafted]) -> Result<Vec<Option<usize>>, OutOfMemory>
    requires { All HasNames entries.now }
    ensures { IfOk result (λ v. v.items ≡ all_met [] (map plain_drafted entries.now)) }
{
    let mut index = NameIndex::new(alloc);
    let mut all = Vec::with_capacity(alloc, entries.len())?;
    for (place, entry) in entries.iter().enumerate() {
        all.push(met(&mut index, place, entry)?)?;
    }
    Ok(all)
}
