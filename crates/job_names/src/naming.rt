//! The name of a file: its extension set apart, and its stem cut.
ghost use Rattle.std.specs.Prelude.{◌≡◌, ◌++◌, ◌∷◌, IfOk};
ghost use Rattle.field_text.specs.Frame.{first_chars};
ghost use Rattle.job_names.specs.Naming as spec;

use field_text::{Frame, framed};
use std::alloc::Global;
use text_base::{OutOfMemory, Text};

/// A name without its last extension, and that extension with its point, or nothing.
#[derive(Debug, Drop)]
pub struct SplitName {
    pub stem: Text,
    pub tail: Text,
}

/// Whether a name of a file can begin so.
fn begins_a_name(text: &str) -> bool
    ensures { result ≡ spec.begins_a_name text.now }
{
    !text.is_empty() && !text.ends_with('/')
}

/// The name and the tail at its end, where a name of a file is left before it.
fn split_at_tail<'a>(name: &'a str, tail: &'a str) -> (&'a str, &'a str)
    ensures { record { stem = result.0.now; tail = result.1.now } ≡ spec.split_at_tail name.entry.now tail.entry.now }
{
    let Some(stem) = name.strip_suffix(tail) else {
        return (name, "");
    };
    if begins_a_name(stem) {
        (stem, tail)
    } else {
        (name, "")
    }
}

/// The first so many characters.
fn first_chars(alloc: Global, text: &str, count: usize) -> Result<Text, OutOfMemory>
    ensures { IfOk result (λ t. t ≡ first_chars count text.now) }
{
    let frame = Frame {
        left: false,
        width: 0,
        precision: Some(count),
    };
    framed(alloc, text, frame)
}

/// A name in a folder.
fn name_in(alloc: Global, folder: &str, name: &str) -> Result<Text, OutOfMemory>
    ensures { IfOk result (λ t. t ≡ folder.now ++ 47 ∷ name.now) }
{
    Ok(Text::from(format!(in alloc; "{folder}/{name}")?))
}

/// A name whose last component is cut to so many characters.
fn cut(alloc: Global, name: &str, count: usize) -> Result<Text, OutOfMemory>
    ensures { IfOk result (λ t. t ≡ spec.cut_name count name.now) }
{
    let Some((folder, last)) = name.rsplit_once('/') else {
        return first_chars(alloc, name, count);
    };
    let last = first_chars(alloc, last, count)?;
    name_in(alloc, folder, last.as_str())
}

/// A name as it is cut; 0 cuts nothing.
fn trimmed(alloc: Global, name: &str, trim: usize) -> Result<Text, OutOfMemory>
    ensures { IfOk result (λ t. t ≡ spec.trimmed trim name.now) }
{
    if trim == 0 {
        return Text::new(alloc, name);
    }
    cut(alloc, name, trim)
}

/// A filled name with its extension set apart and its stem cut.
pub fn split_name(
    alloc: Global,
    name: &str,
    ext: &str,
    trim: usize,
) -> Result<SplitName, OutOfMemory>
    ensures { IfOk result (λ n. n ≡ spec.split_name trim ext.now name.now) }
{
    let tail = format!(in alloc; ".{ext}")?;
    let (stem, tail) = split_at_tail(name, tail.as_str());
    Ok(SplitName {
        stem: trimmed(alloc, stem, trim)?,
        tail: Text::new(alloc, tail)?,
    })
}

/// The whole name.
pub fn whole_name(alloc: Global, name: &SplitName) -> Result<Text, OutOfMemory>
    ensures { IfOk result (λ t. t ≡ spec.whole_name name.now) }
{
    let (stem, tail) = (name.stem.as_str(), name.tail.as_str());
    Ok(Text::from(format!(in alloc; "{stem}{tail}")?))
}

/// A stem with a point and an extension.
pub fn with_ext(alloc: Global, stem: &str, ext: &str) -> Result<Text, OutOfMemory>
    ensures { IfOk result (λ t. t ≡ spec.with_ext stem.now ext.now) }
{
    Ok(Text::from(format!(in alloc; "{stem}.{ext}")?))
}

/// The name of a part's file.
pub fn part_name(alloc: Global, stem: &str, id: &str, ext: &str) -> Result<Text, OutOfMemory>
    ensures { IfOk result (λ t. t ≡ spec.part_name stem.now id.now ext.now) }
{
    Ok(Text::from(format!(in alloc; "{stem}.f{id}.{ext}")?))
}

/// The output of a step, counted from 1.
pub fn output_name(alloc: Global, stem: &str, step: usize, ext: &str) -> Result<Text, OutOfMemory>
    ensures { IfOk result (λ t. t ≡ spec.output_name stem.now step ext.now) }
{
    Ok(Text::from(format!(in alloc; "{stem}.temp-{step}.{ext}")?))
}
