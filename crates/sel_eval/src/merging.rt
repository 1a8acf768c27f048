ghost use Rattle.std.specs.Prelude.{◌≡◌, ◌∷◌, ◌++◌, ◌≤◌, [], IfOk, OnOk, List, map, fold};
ghost use Rattle.sel_eval.specs.Keep.{kept_with};
ghost use Rattle.sel_eval.specs.Den.{Choices, merged, product_count, is_over};
ghost use Rattle.sel_eval.specs.Answer.{Answers};
ghost use Rattle.sel_eval.specs.Merging.{spread, IsMerging};

use crate::choice::Choice;
use crate::choose_fault::ChooseFault;
use crate::picking::MOST;
use crate::streams::Streams;
use std::alloc::Global;
use text_base::OutOfMemory;

/// What the parts of a merge give, as far as they are met.
#[derive(Drop)]
pub(crate) struct Merging<'a> {
    /// How many rows of one choice of each part there are; at the type's end there may be more.
    count: usize,
    /// What is kept of each row, where they are not too many.
    rows: Vec<Choice<'a>>,
}

impl<'a> Merging<'a> {
    /// The merge of no part.
    pub(crate) fn new(alloc: Global) -> Result<Merging<'a>, OutOfMemory>
        ensures { IfOk result (λ m. (streams : _) → IsMerging streams [] m) }
    {
        let mut rows = Vec::with_capacity(alloc, 1)?;
        rows.push(Choice::new(alloc))?;
        Ok(Merging { count: 1, rows })
    }

    /// The merge with one more part.
    pub(crate) fn with(
        self,
        alloc: Global,
        streams: &Streams,
        choices: &[Choice<'a>],
    ) -> Result<Merging<'a>, OutOfMemory>
        ensures { IfOk result (λ m. (parts : List Choices) →
            IsMerging streams.now parts self.entry → IsMerging streams.now (parts ++ choices.entry.now ∷ []) m) }
    {
        let Merging { count, rows } = self;
        let count = count.saturating_mul(choices.len());
        let rows = few_rows(alloc, streams, count, rows, choices)?;
        Ok(Merging { count, rows })
    }

    /// The choices of the merge.
    pub(crate) fn end(self) -> Result<Vec<Choice<'a>>, ChooseFault>
        ensures { (streams : _) (parts : List Choices) → IsMerging streams parts self.entry →
            Answers result (merged streams parts) (is_over (product_count parts)) }
    {
        let Merging { count, rows } = self;
        if count > MOST {
            return Err(ChooseFault::TooMany);
        }
        let mut choices = rows;
        choices.retain(|choice| choice.has_parts());
        Ok(choices)
    }
}

/// Each row with each choice behind it, where they are few enough.
fn few_rows<'a>(
    alloc: Global,
    streams: &Streams,
    count: usize,
    rows: Vec<Choice<'a>>,
    choices: &[Choice<'a>],
) -> Result<Vec<Choice<'a>>, OutOfMemory>
    ensures { IfOk result (λ v. count ≤ 10000 → v.items ≡ spread streams.now rows.entry.items choices.entry.now) }
{
    if count > MOST {
        return Ok(Vec::new(alloc));
    }
    spread(alloc, streams, rows, choices)
}

/// Each row with each choice behind it, the row changing last.
fn spread<'a>(
    alloc: Global,
    streams: &Streams,
    rows: Vec<Choice<'a>>,
    choices: &[Choice<'a>],
) -> Result<Vec<Choice<'a>>, OutOfMemory>
    ensures { IfOk result (λ v. v.items ≡ spread streams.now rows.entry.items choices.entry.now) }
{
    let mut all = Vec::new(alloc);
    for row in rows {
        add_rows(alloc, streams, row, choices, &mut all)?;
    }
    Ok(all)
}

/// Adds a row with each choice behind it. The last choice takes the row itself, so that a merge of single choices copies nothing.
fn add_rows<'a>(
    alloc: Global,
    streams: &Streams,
    row: Choice<'a>,
    choices: &[Choice<'a>],
    all: &mut Vec<Choice<'a>>,
) -> Result<(), OutOfMemory>
    ensures { OnOk result (all.new.items ≡ all.old.items ++ map (fold (kept_with streams.now) row.entry) choices.entry.now) }
{
    let Some((last, others)) = choices.split_last() else {
        return Ok(());
    };
    for choice in others {
        all.push(with_choice(alloc, streams, &row, choice)?)?;
    }
    let mut row = row;
    row.merge(streams, last.parts())?;
    all.push(row)?;
    Ok(())
}

/// A row with a choice behind it.
fn with_choice<'a>(
    alloc: Global,
    streams: &Streams,
    row: &Choice<'a>,
    choice: &Choice<'a>,
) -> Result<Choice<'a>, OutOfMemory>
    ensures { IfOk result (λ c. c ≡ fold (kept_with streams.now) row.now choice.now) }
{
    let mut copy = row.copy(alloc)?;
    copy.merge(streams, choice.parts())?;
    Ok(copy)
}
