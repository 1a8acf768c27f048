//! What templates are filled to for a choice of an item.
ghost use Rattle.std.specs.Prelude.{◌≡◌, OnOk};
ghost use Rattle.job_plan.specs.Draft as spec;
ghost use Rattle.job_plan.specs.Outcome.{GivesSome};
ghost use Rattle.job_plan.specs.declared.fault.JobFault.TheVariants.{Fill};

use crate::fault::JobFault;
use crate::stop::Stop;
use info_item::View;
use info_tree::Tree;
use std::alloc::Global;
use text_base::{OutOfMemory, Text};
use tpl_eval::{Clean, FillFault, Marks, fill};
use tpl_lang::Template;

/// The text that a template is filled to.
pub(crate) fn filled(
    alloc: Global,
    template: &Template,
    view: &View<'_>,
    marks: &Marks,
    clean: Clean,
) -> Result<Text, Stop>
    ensures { GivesSome (λ t. t) result (spec.filled marks.now.na clean view.now template.now) Fill }
{
    match fill(alloc, template, view, marks, clean) {
        Ok(text) => Ok(text),
        Err(FillFault::TooLong) => Err(Stop::Fault(JobFault::Fill)),
        Err(FillFault::OutOfMemory) => Err(Stop::OutOfMemory),
    }
}

/// The texts that templates are filled to as they are.
pub(crate) fn all_filled(
    alloc: Global,
    templates: &[Template],
    view: &View<'_>,
    marks: &Marks,
) -> Result<Vec<Text>, Stop>
    ensures { GivesSome (λ v. v.items) result (spec.all_filled marks.now.na view.now templates.now) Fill }
{
    let mut texts = Vec::with_capacity(alloc, templates.len())?;
    for template in templates {
        texts.push(filled(alloc, template, view, marks, Clean::Plain)?)?;
    }
    Ok(texts)
}

/// Puts the final name where printed lines and commands find it.
pub(crate) fn tell_name(
    alloc: Global,
    view: &mut View<'_>,
    final_name: &str,
) -> Result<(), OutOfMemory>
    ensures { OnOk result (view.new ≡ spec.told_pairs view.old final_name.now) }
{
    let name = Tree::Text(Text::new(alloc, final_name)?);
    view.put(alloc, "filename", name)?;
    let path = Tree::Text(Text::new(alloc, final_name)?);
    view.put(alloc, "filepath", path)
}

/// How names are cleaned.
pub(crate) fn name_clean(restricted: bool) -> Clean
    ensures { result ≡ spec.name_clean restricted }
{
    if restricted {
        Clean::Restricted
    } else {
        Clean::Names
    }
}
