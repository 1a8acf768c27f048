//! Jobs as they are asked for and told.
ghost use Rattle.std.specs.Prelude.{◌≡◌, IfOk};

use fmt_sort::read_sort;
use info_item::read_items;
use info_tree::read_tree;
use job_plan::{ExtRule, Job, JobOr, PlanOptions, make_jobs, plan_text};
use sel_eval::Streams;
use sel_lang::read_sel;
use std::alloc::Global;
use std::fmt::Write;
use std::process::Abort;
use std::test::Fail;
use text_base::Text;
use tool_chain::ToolJob;
use tpl_lang::{Template, read_template};

/// A rule of extensions: what it is for, if not for each, and what becomes of that.
pub(crate) type Rule = (Option<&'static str>, &'static str);

/// What is asked for, in the words of the command line.
#[derive(Clone, Copy)]
pub(crate) struct Asked<'a> {
    pub(crate) selector: &'a str,
    pub(crate) template: &'a str,
    pub(crate) restricted: bool,
    pub(crate) trim: usize,
    /// Whether a merge may take several parts with video, and with audio.
    pub(crate) several: bool,
    pub(crate) remux: &'a [Rule],
    pub(crate) audio: Option<&'a [Rule]>,
    pub(crate) exec: &'a [&'a str],
    pub(crate) prints: &'a [&'a str],
    pub(crate) archive: Option<&'a str>,
}

/// Nothing but what holds without words.
pub(crate) const PLAIN: Asked<'static> = Asked {
    selector: "bv*+ba/b",
    template: "%(title)s [%(id)s].%(ext)s",
    restricted: false,
    trim: 0,
    several: false,
    remux: &[],
    audio: None,
    exec: &[],
    prints: &[],
    archive: None,
};

fn rules(alloc: Global, asked: &[Rule]) -> Result<Vec<ExtRule>, Fail> {
    let mut rules = Vec::new(alloc);
    for (from, to) in asked {
        let from = match from {
            Some(from) => Some(Text::new(alloc, from)?),
            None => None,
        };
        let to = Text::new(alloc, to)?;
        rules.push(ExtRule { from, to })?;
    }
    Ok(rules)
}

fn templates(alloc: Global, texts: &[&str]) -> Result<Vec<Template>, Fail> {
    let mut templates = Vec::new(alloc);
    for text in texts {
        templates.push(read_template(alloc, text)?)?;
    }
    Ok(templates)
}

fn options(alloc: Global, asked: &Asked<'_>) -> Result<PlanOptions, Fail>
    ensures { IfOk result (λ options. options.first_number ≡ 1) }
{
    let streams = Streams {
        video: asked.several,
        audio: asked.several,
        merge_ext: Vec::new(alloc),
    };
    let audio = match asked.audio {
        Some(audio) => Some(rules(alloc, audio)?),
        None => None,
    };
    let archive = match asked.archive {
        Some(name) => Some(Text::new(alloc, name)?),
        None => None,
    };
    Ok(PlanOptions {
        sel: read_sel(alloc, asked.selector)?,
        sort: read_sort(alloc, &Vec::new(alloc), false, false)?,
        streams,
        template: read_template(alloc, asked.template)?,
        na: Text::new(alloc, "NA")?,
        first_number: 1,
        restricted: asked.restricted,
        trim: asked.trim,
        remux: rules(alloc, asked.remux)?,
        audio,
        exec: templates(alloc, asked.exec)?,
        prints: templates(alloc, asked.prints)?,
        tool: Text::new(alloc, "ffmpeg")?,
        archive,
    })
}

/// What is told of a job.
#[derive(Clone, Copy)]
pub(crate) enum Told {
    /// The files that are fetched, the outputs of the steps, and the final name.
    Names,
    /// The children of its steps.
    Steps,
    /// The children that are run for the finished file.
    Execs,
    Printed,
    /// The pieces with their fields.
    Pieces,
    /// The records of its components.
    Records,
}

fn tell_names(line: &mut String, job: &Job) -> Result<(), Fail> {
    let mut joint = "";
    for component in &job.components {
        line.push_str(joint)?;
        line.push_str(component.name.as_str())?;
        joint = " + ";
    }
    for step in &job.steps {
        line.push_str(" > ")?;
        if let Some(output) = &step.output {
            line.push_str(output.as_str())?;
        }
    }
    line.push_str(" > ")?;
    line.push_str(job.final_name.as_str())?;
    Ok(())
}

fn tell_children(line: &mut String, children: &[ToolJob]) -> Result<(), Fail> {
    let mut joint = "";
    for child in children {
        line.push_str(joint)?;
        line.push_str(child.program.as_str())?;
        for arg in &child.args {
            line.push('|')?;
            line.push_str(arg.as_str())?;
        }
        joint = "; ";
    }
    Ok(())
}

fn tell_texts(line: &mut String, texts: &[Text]) -> Result<(), Fail> {
    let mut joint = "";
    for text in texts {
        line.push_str(joint)?;
        line.push_str(text.as_str())?;
        joint = "|";
    }
    Ok(())
}

fn tell_pieces(line: &mut String, job: &Job) -> Result<(), Fail> {
    for component in &job.components {
        for piece in &component.pieces {
            write!(line, "<{}", piece.url.as_str())?;
            for header in &piece.headers {
                write!(line, " {}: {}", header.name.as_str(), header.value.as_str())?;
            }
            line.push('>')?;
        }
    }
    Ok(())
}

fn tell_records(alloc: Global, line: &mut String, job: &Job) -> Result<(), Fail> {
    for component in &job.components {
        line.push_str(plan_text(alloc, component)?.as_str())?;
    }
    Ok(())
}

fn tell(alloc: Global, line: &mut String, entry: &JobOr, told: Told) -> Result<(), Fail> {
    let job = match entry {
        JobOr::Job(job) => job,
        JobOr::Fault { fault, .. } => {
            write!(line, "{fault:?}")?;
            return Ok(());
        }
    };
    match told {
        Told::Names => tell_names(line, job),
        Told::Steps => tell_children(line, &job.steps),
        Told::Execs => tell_children(line, &job.execs),
        Told::Printed => tell_texts(line, &job.printed),
        Told::Pieces => tell_pieces(line, job),
        Told::Records => tell_records(alloc, line, job),
    }
}

/// What is told of the entries of an information file, with ` / ` between.
pub(crate) fn told_of(
    rt: &impl Abort,
    alloc: Global,
    info: &str,
    asked: &Asked<'_>,
    told: Told,
) -> Result<String, Fail> {
    let tree = read_tree(alloc, info.as_bytes())?;
    let items = read_items(alloc, &tree)?;
    assert!(rt; items.len() < 1_000);
    let entries = make_jobs(alloc, &items, &options(alloc, asked)?)?;
    let mut line = String::new(alloc);
    let mut joint = "";
    for entry in &entries {
        line.push_str(joint)?;
        tell(alloc, &mut line, entry, told)?;
        joint = " / ";
    }
    Ok(line)
}

/// An information file, what is asked for, and what is told.
pub(crate) type Row = (&'static str, Asked<'static>, &'static str);

/// What is told of jobs is what stands in these rows.
pub(crate) fn are_told(
    rt: &impl Abort,
    alloc: Global,
    told: Told,
    rows: &[Row],
) -> Result<(), Fail> {
    for (info, asked, wanted) in rows {
        let line = told_of(rt, alloc, info, asked, told)?;
        assert_eq!(rt;
            line.as_str(),
            *wanted,
            "{} {}",
            asked.selector,
            asked.template
        );
    }
    Ok(())
}
