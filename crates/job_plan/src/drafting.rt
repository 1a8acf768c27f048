//! A choice of an item, as far as it is a job by itself.
ghost use Rattle.std.specs.Prelude.{◌≡◌, IfOk, map};
ghost use Rattle.job_plan.specs.Draft as spec;
ghost use Rattle.job_steps.specs.Views.{plain_step};

use crate::draft::Draft;
use crate::fault::{ClashWith, JobFault};
use crate::fetchable::Fetchable;
use crate::filling::{all_filled, filled, name_clean, tell_name};
use crate::options::PlanOptions;
use crate::stop::Stop;
use info_item::{Combo, Format, Item, View};
use job_names::{
    SplitName, exact_names, is_long, meets_archive, meets_itself, part_name, split_name,
    whole_name, with_ext,
};
use job_pieces::parts_of;
use job_steps::{Making, Step, commands, exec_commands};
use name_text::{check_path, clean};
use std::alloc::Global;
use text_base::{OutOfMemory, Text};
use tpl_eval::Marks;

/// Drafts jobs as they are asked for.
#[derive(Drop)]
pub(crate) struct Drafting<'a> {
    pub(crate) options: &'a PlanOptions,
    pub(crate) marks: Marks,
}

/// A name with the steps that lead to the final one.
#[derive(Drop)]
struct Named<'a> {
    name: SplitName,
    steps: Vec<Step<'a>>,
    final_name: Text,
}

/// The final name: that of the last output, or the name as it is.
fn final_name(alloc: Global, name: &SplitName, steps: &[Step<'_>]) -> Result<Text, OutOfMemory>
    ensures { IfOk result (λ t. t ≡ spec.final_of name.now (map plain_step steps.now)) }
{
    match steps.last() {
        Some(step) => with_ext(alloc, name.stem.as_str(), step.ext),
        None => whole_name(alloc, name),
    }
}

impl<'a> Drafting<'a> {
    ghost use Rattle.std.specs.Prelude.{◌≡◌, ◌<◌, ◌^◌, IfOk, option_map, map};
    ghost use Rattle.sel_eval.specs.Answer.{plain_combo};
    ghost use Rattle.job_plan.specs.Draft as spec;
    ghost use Rattle.job_plan.specs.Fetchable.{Told};
    ghost use Rattle.job_plan.specs.Outcome.{Gives, GivesSome};
    ghost use Rattle.job_steps.specs.Views.{plain_step};
    ghost use Rattle.job_plan.specs.Views.{plain_plan, plain_drafting, plain_draft, plain_named, IsNamed};
    ghost use Rattle.job_plan.specs.declared.fault.JobFault.TheVariants.{Fill};

    pub(crate) fn new(alloc: Global, options: &'a PlanOptions) -> Result<Drafting<'a>, OutOfMemory>
        ensures { IfOk result (λ d. plain_drafting d ≡ plain_plan options.entry.now) }
    {
        let marks = Marks {
            na: Text::new(alloc, options.na.as_str())?,
        };
        Ok(Drafting { options, marks })
    }

    /// What the template gives, with the cleaned extension set apart.
    fn name_of(&self, alloc: Global, view: &View<'_>, ext: &str) -> Result<SplitName, Stop>
        ensures { GivesSome (λ n. n) result (spec.name_of (plain_drafting self.now) view.now ext.now) Fill }
    {
        let clean = name_clean(self.options.restricted);
        let name = filled(alloc, &self.options.template, view, &self.marks, clean)?;
        Ok(split_name(alloc, name.as_str(), ext, self.options.trim)?)
    }

    /// How files are made of what is fetched.
    fn making<'b>(&'b self) -> Making<'b>
        ensures remux { result.remux.now ≡ (plain_drafting self.now).remux }
        ensures audio { option_map (λ rules. rules.now) result.audio ≡ (plain_drafting self.now).audio }
    {
        let audio = match &self.options.audio {
            Some(rules) => Some(rules.as_slice()),
            None => None,
        };
        Making {
            remux: self.options.remux.as_slice(),
            audio,
        }
    }

    /// The name of a choice with its steps, by the extension and by that as it stands in a name.
    fn named<'b>(
        &'b self,
        alloc: Global,
        view: &View<'_>,
        parts: &[&Format<'_>],
        ext: &str,
        clean_ext: &'b str,
    ) -> Result<Named<'b>, Stop>
        ensures { GivesSome plain_named result
            (spec.named (plain_drafting self.now) view.now (map (λ f. f.now) parts.now) ext.now clean_ext.entry.now) Fill }
    {
        let name = self.name_of(alloc, view, clean_ext)?;
        let steps = self.making().steps_of(alloc, parts, ext, clean_ext)?;
        let final_name = final_name(alloc, &name, &steps)?;
        Ok(Named {
            name,
            steps,
            final_name,
        })
    }

    /// The name of a part's file.
    fn name_of_part(
        &self,
        alloc: Global,
        stem: &str,
        part: &Format<'_>,
    ) -> Result<Text, OutOfMemory>
        ensures { IfOk result (λ t. t ≡ spec.name_of_part (plain_drafting self.now).restricted stem.now part.now) }
    {
        let id = clean(alloc, part.id(), self.options.restricted)?;
        let ext = clean(alloc, part.ext(), self.options.restricted)?;
        part_name(alloc, stem, id.as_str(), ext.as_str())
    }

    /// The names of the parts' files.
    fn names_of_parts(
        &self,
        alloc: Global,
        stem: &str,
        parts: &[&Format<'_>],
    ) -> Result<Vec<Text>, OutOfMemory>
        ensures { IfOk result (λ v. v.items
            ≡ map (spec.name_of_part (plain_drafting self.now).restricted stem.now) (map (λ f. f.now) parts.now)) }
    {
        let mut names = Vec::with_capacity(alloc, parts.len())?;
        for part in parts {
            names.push(self.name_of_part(alloc, stem, part)?)?;
        }
        Ok(names)
    }

    /// The names of the files that are fetched.
    fn fetched_names(
        &self,
        alloc: Global,
        named: &Named<'_>,
        parts: &[&Format<'_>],
    ) -> Result<Vec<Text>, OutOfMemory>
        ensures { IfOk result (λ v. v.items
            ≡ spec.fetched_names (plain_drafting self.now).restricted named.now.name (map (λ f. f.now) parts.now) (map plain_step named.now.steps.items)) }
    {
        if !named.steps.is_empty() {
            return self.names_of_parts(alloc, named.name.stem.as_str(), parts);
        }
        let mut names = Vec::with_capacity(alloc, 1)?;
        names.push(whole_name(alloc, &named.name)?)?;
        Ok(names)
    }

    /// The draft of a name, with the lines that are printed and those that are run.
    fn draft_with(
        &self,
        alloc: Global,
        combo: Combo,
        parts: &[&Format<'_>],
        named: Named<'_>,
        printed: Vec<Text>,
        lines: &[Text],
    ) -> Result<Draft, OutOfMemory>
        ensures draft { IfOk result (λ d. plain_draft d ≡ spec.draft_with (plain_drafting self.now) (plain_combo combo)
            (map (λ f. f.now) parts.now) (plain_named named.entry) printed.items lines.now) }
        ensures exact { IfOk result IsNamed }
    {
        let fetched = self.fetched_names(alloc, &named, parts)?;
        let Named {
            name,
            steps,
            final_name,
        } = named;
        let (stem, tool) = (name.stem.as_str(), self.options.tool.as_str());
        let commands = commands(alloc, tool, parts, stem, &fetched, &steps)?;
        Ok(Draft {
            name: whole_name(alloc, &name)?,
            combo,
            exact: exact_names(alloc, final_name.as_str(), &fetched, &commands)?,
            execs: exec_commands(alloc, final_name.as_str(), lines)?,
            final_name,
            components: fetched,
            steps: commands,
            printed,
        })
    }

    /// The draft of a name. Printed lines and commands are filled from what the view tells and the final name.
    fn draft_of_name(
        &self,
        alloc: Global,
        view: &mut View<'_>,
        combo: Combo,
        parts: &[&Format<'_>],
        named: Named<'_>,
    ) -> Result<Draft, Stop>
        ensures draft { GivesSome plain_draft result (spec.draft_of_name (plain_drafting self.now) view.old (plain_combo combo)
            (map (λ f. f.now) parts.now) (plain_named named.entry)) Fill }
        ensures exact { IfOk result IsNamed }
    {
        tell_name(alloc, view, named.final_name.as_str())?;
        let printed = all_filled(alloc, &self.options.prints, view, &self.marks)?;
        let lines = all_filled(alloc, &self.options.exec, view, &self.marks)?;
        Ok(self.draft_with(alloc, combo, parts, named, printed, &lines)?)
    }

    /// The draft of a choice with this number.
    fn draft_of(
        &self,
        alloc: Global,
        item: &Item<'_>,
        combo: Combo,
        number: u64,
    ) -> Result<Draft, Stop>
        requires { number < 2 ^ 63 }
        ensures draft { GivesSome plain_draft result (spec.draft_of (plain_drafting self.now) number item.now (plain_combo combo)) Fill }
        ensures exact { IfOk result IsNamed }
    {
        let parts = parts_of(alloc, item.formats(), &combo.parts)?;
        let mut view = View::new(alloc, item, &combo, number)?;
        let ext = clean(alloc, combo.ext.as_str(), self.options.restricted)?;
        let named = self.named(alloc, &view, &parts, combo.ext.as_str(), ext.as_str())?;
        self.draft_of_name(alloc, &mut view, combo, &parts, named)
    }

    /// The first fault of a draft by itself.
    fn fault_of(&self, alloc: Global, draft: &Draft) -> Result<Option<JobFault>, OutOfMemory>
        requires { IsNamed draft.now }
        ensures { IfOk result (λ fault. fault ≡ spec.fault_of (plain_drafting self.now) (plain_draft draft.now)) }
    {
        if let Err(fault) = check_path(draft.name.as_str()) {
            return Ok(Some(JobFault::Path(fault)));
        }
        if let Err(fault) = check_path(draft.final_name.as_str()) {
            return Ok(Some(JobFault::Path(fault)));
        }
        if is_long(&draft.exact, &draft.components) {
            return Ok(Some(JobFault::NameLong));
        }
        Ok(
            self.clash_of(alloc, draft)?
                .map(|with| JobFault::Clash { with }),
        )
    }

    /// What a draft clashes with by itself: its own names, or the archive.
    fn clash_of(&self, alloc: Global, draft: &Draft) -> Result<Option<ClashWith>, OutOfMemory>
        requires { IsNamed draft.now }
        ensures { IfOk result (λ with. with ≡ spec.clash_of (plain_drafting self.now) (plain_draft draft.now)) }
    {
        if meets_itself(alloc, &draft.exact, &draft.components)? {
            return Ok(Some(ClashWith::Own));
        }
        let archive = &self.options.archive;
        if meets_archive(alloc, &draft.exact, &draft.components, archive)? {
            return Ok(Some(ClashWith::Archive));
        }
        Ok(None)
    }

    /// What becomes of a choice by itself, with this number.
    pub(crate) fn drafted(
        &self,
        alloc: Global,
        item: &Item<'_>,
        fetchable: &mut Fetchable<'_>,
        combo: Combo,
        number: u64,
    ) -> Result<Draft, Stop>
        requires told { Told item.now.formats fetchable.old }
        requires number { number < 2 ^ 63 }
        ensures told { Told item.now.formats fetchable.new }
        ensures draft { Gives plain_draft result (spec.drafted (plain_drafting self.now) number item.now (plain_combo combo)) }
        ensures exact { IfOk result IsNamed }
    {
        if let Some(part) = fetchable.first_without(alloc, &combo.parts)? {
            return Err(Stop::Fault(JobFault::Pieces { part }));
        }
        let draft = self.draft_of(alloc, item, combo, number)?;
        match self.fault_of(alloc, &draft)? {
            Some(fault) => Err(Stop::Fault(fault)),
            None => Ok(draft),
        }
    }
}
