//! What words ask for, once all are read.

ghost use Rattle.std.specs.Prelude.{◌≡◌, IfOk};
ghost use Rattle.std.specs.Option.{option_map};
ghost use Rattle.sel_lang.specs.View.{plain};
ghost use Rattle.word_list.specs.Options as spec;
ghost use Rattle.word_list.specs.Views.{plain_choosing, plain_options, plain_plan, plain_settings, plain_tools};

use crate::choosing::Choosing;
use crate::defaults::{default_sel, default_template};
use crate::naming::Naming;
use crate::settings::Settings;
use crate::showing::Showing;
use crate::tools::Tools;
use job_plan::PlanOptions;
use sel_lang::Sel;
use std::alloc::Global;
use text_base::{OutOfMemory, Text};
use tpl_lang::Template;

/// What the words ask for.
#[derive(Drop)]
pub struct Options {
    pub plan: PlanOptions,
    /// The file of information; the self-test has none.
    pub info: Option<Text>,
    /// Whether nothing is downloaded.
    pub simulate: bool,
    /// Whether nothing is said of what is done.
    pub quiet: bool,
    /// How many pieces are fetched at once.
    pub workers: usize,
    /// How often a piece is tried again.
    pub retries: u32,
    /// How often a fragment is tried again.
    pub fragment_retries: u32,
    /// Whether the run goes on from what an earlier one left.
    pub resume: bool,
    /// Whether the files that others are made of are kept.
    pub keep: bool,
    /// Whether the run ends at an item of the archive.
    pub break_on_existing: bool,
    /// Whether nothing follows an entry that failed.
    pub abort_on_error: bool,
    /// How many items the self-test has, where it is asked for.
    pub selftest: Option<u64>,
}

/// The options that settings are.
pub fn options_of(alloc: Global, settings: Settings) -> Result<Options, OutOfMemory>
    ensures { IfOk result (λ o. plain_options o ≡ spec.options_of (plain_settings settings)) }
{
    let Settings {
        source,
        choosing,
        naming,
        showing,
        fetching,
        tools,
    } = settings;
    let simulate = showing.simulates();
    let quiet = showing.is_quiet();
    let keep = tools.keep;
    let Showing { prints, .. } = showing;
    Ok(Options {
        plan: plan_of(alloc, choosing, naming, prints, tools, fetching.archive)?,
        info: source.info,
        simulate,
        quiet,
        workers: fetching.workers,
        retries: fetching.retries,
        fragment_retries: fetching.fragment_retries,
        resume: fetching.resume,
        keep,
        break_on_existing: fetching.break_on_existing,
        abort_on_error: fetching.abort_on_error,
        selftest: None,
    })
}

/// What settings say of jobs.
fn plan_of(
    alloc: Global,
    choosing: Choosing,
    naming: Naming,
    prints: Vec<Template>,
    tools: Tools,
    archive: Option<Text>,
) -> Result<PlanOptions, OutOfMemory>
    ensures { IfOk result (λ p. plain_plan p ≡ spec.plan_of (plain_choosing choosing) naming prints.items (plain_tools tools) archive) }
{
    let Tools {
        keep,
        remux,
        extracts,
        audio,
        exec,
        program,
    } = tools;
    Ok(PlanOptions {
        sel: sel_or_default(
            alloc,
            choosing.sel,
            extracts && !keep,
            choosing.streams.audio,
        )?,
        sort: choosing.sort.spec(alloc, choosing.force, choosing.free)?,
        streams: choosing.streams,
        template: template_or_default(alloc, naming.template, naming.restricted)?,
        na: naming.na,
        first_number: naming.first_number,
        restricted: naming.restricted,
        trim: naming.trim,
        remux,
        audio: if extracts { Some(audio) } else { None },
        exec,
        prints,
        tool: program,
        archive,
    })
}

fn sel_or_default(
    alloc: Global,
    sel: Option<Sel>,
    audio_alone: bool,
    audio_streams: bool,
) -> Result<Sel, OutOfMemory>
    ensures { IfOk result (λ s. plain s ≡ spec.sel_or_default (option_map plain sel) audio_alone audio_streams) }
{
    match sel {
        Some(sel) => Ok(sel),
        None => default_sel(alloc, audio_alone, audio_streams),
    }
}

fn template_or_default(
    alloc: Global,
    template: Option<Template>,
    restricted: bool,
) -> Result<Template, OutOfMemory>
    ensures { IfOk result (λ t. t ≡ spec.template_or_default template restricted) }
{
    match template {
        Some(template) => Ok(template),
        None => default_template(alloc, restricted),
    }
}
