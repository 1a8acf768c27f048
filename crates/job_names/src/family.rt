//! The exact names of a job's family, and what they meet by themselves.
ghost use Rattle.std.specs.Prelude.{◌≡◌, ◌≤◌, ◌==◌, ◌||◌, ◌&&◌, ◌++◌, ◌∷◌, [], ℕ, List, IfOk, OnOk, bytes_eq, codes, false, filter_map, length, map, not, take};
ghost use Rattle.std.specs.List.{list_any};
ghost use Rattle.std.specs.Option.{option_map_or};
ghost use Rattle.plan_record.specs.Names.{begins, pieces_of};
ghost use Rattle.tool_chain.specs.Jobs.{job_of};
ghost use Rattle.job_names.specs.Family as spec;
ghost use Rattle.job_names.specs.Index.{has_text};

use plan_record::{name_room, write_joined, write_record, write_spare};
use std::alloc::Global;
use std::collections::BTreeSet;
use text_base::{OutOfMemory, Text};
use tool_chain::ToolJob;

/// What the names of a component's pieces have behind the component's.
const PIECES: &[u8] = b".part-Frag";
/// The most bytes of a component of a path.
const PATH_COMPONENT: usize = 255;
/// The most bytes that the last component of a fetched file's name may have, so that there is room for those beside it.
const FETCHED: usize = 225;

/// Adds a copy of a name.
fn push_copy(alloc: Global, names: &mut Vec<Text>, name: &str) -> Result<(), OutOfMemory>
    ensures { OnOk result (names.new.items ≡ names.old.items ++ name.now ∷ []) }
{
    names.push(Text::new(alloc, name)?)?;
    Ok(())
}

/// Adds a component and the exact names beside it.
fn push_component(alloc: Global, names: &mut Vec<Text>, component: &str) -> Result<(), OutOfMemory>
    ensures { OnOk result (names.new.items ≡ names.old.items ++ spec.component_names component.now) }
{
    let mut name = name_room(alloc, component)?;
    push_copy(alloc, names, component)?;
    write_record(&mut name, component);
    push_copy(alloc, names, name.as_str())?;
    write_spare(&mut name, component);
    push_copy(alloc, names, name.as_str())?;
    write_joined(&mut name, component);
    push_copy(alloc, names, name.as_str())
}

/// Adds the outputs of steps.
fn push_outputs(alloc: Global, names: &mut Vec<Text>, steps: &[ToolJob]) -> Result<(), OutOfMemory>
    ensures { OnOk result (names.new.items ≡ names.old.items ++ filter_map (λ step. step.output) (map job_of steps.now)) }
{
    for step in steps {
        if let Some(output) = &step.output {
            push_copy(alloc, names, output.as_str())?;
        }
    }
    Ok(())
}

/// The exact names of a family. Every step has an output.
pub fn exact_names(
    alloc: Global,
    final_name: &str,
    components: &[Text],
    steps: &[ToolJob],
) -> Result<Vec<Text>, OutOfMemory>
    ensures { IfOk result (λ v. v.items ≡ spec.exact_names (record {
      final_name = final_name.now;
      components = components.now;
      outputs = filter_map (λ step. step.output) (map job_of steps.now);
    })) }
{
    let mut names = Vec::new(alloc);
    if has_output(steps) {
        push_copy(alloc, &mut names, final_name)?;
    }
    for component in components {
        push_component(alloc, &mut names, component.as_str())?;
    }
    push_outputs(alloc, &mut names, steps)?;
    Ok(names)
}

/// Whether some step has an output.
fn has_output(steps: &[ToolJob]) -> bool
    ensures { result ≡ not (length (filter_map (λ step. step.output) (map job_of steps.now)) == 0) }
{
    steps.iter().any(|step| step.output.is_some())
}

/// Whether a name of a piece can stand here: what is before it is a component's name then.
pub(crate) fn is_piece_front(name: &[u8], place: usize) -> bool
    requires { place ≤ length name.now }
    ensures { result ≡ begins (pieces_of (take place name.now)) name.now }
{
    name[place..].starts_with(PIECES)
}

/// Whether the last component of a path has more bytes than these.
fn is_longer(most: usize, name: &str) -> bool
    ensures { result ≡ spec.is_longer most name.now }
{
    match name.rsplit_once('/') {
        Some((_, last)) => last.len() > most,
        None => name.len() > most,
    }
}

/// Whether a file can't have one of the names, or one that is fetched has no room for the names beside it.
pub fn is_long(exact: &[Text], components: &[Text]) -> bool
    ensures { result ≡ (list_any (spec.is_longer 255) exact.now || list_any (spec.is_longer 225) components.now) }
{
    exact
        .iter()
        .any(|name| is_longer(PATH_COMPONENT, name.as_str()))
        || components
            .iter()
            .any(|component| is_longer(FETCHED, component.as_str()))
}

/// Whether a text stands twice among texts.
fn has_twice(alloc: Global, names: &[Text]) -> Result<bool, OutOfMemory>
    ensures { IfOk result (λ twice. twice ≡ spec.has_twice names.now) }
{
    let mut seen = BTreeSet::new(alloc);
    for name in names {
        if !seen.insert(name.as_str())? {
            return Ok(true);
        }
    }
    Ok(false)
}

/// These texts, to be looked up by their bytes.
fn set_of<'a>(alloc: Global, texts: &'a [Text]) -> Result<BTreeSet<&'a [u8]>, OutOfMemory>
    ensures { IfOk result (λ set. (text : List ℕ) → has_text set text ≡ list_any (bytes_eq text) texts.entry.now) }
{
    let mut set = BTreeSet::new(alloc);
    for text in texts {
        set.insert(text.as_str().as_bytes())?;
    }
    Ok(set)
}

/// Whether what is before a place of a name is one of these components, and the name is that of a piece of it.
fn is_piece_at<'a>(components: &BTreeSet<&'a [u8]>, name: &'a [u8], place: usize) -> bool
    requires { place ≤ length name.now }
    ensures { result ≡ (begins (pieces_of (take place name.now)) name.now && has_text components.now (take place name.now)) }
{
    is_piece_front(name, place) && components.contains(&name[..place])
}

/// Whether a name is that of a piece of one of these components.
fn is_piece_of<'a>(components: &BTreeSet<&'a [u8]>, name: &'a [u8]) -> bool
    ensures { (texts : List (List ℕ)) → ((text : List ℕ) → has_text components.now text ≡ list_any (bytes_eq text) texts)
        → result ≡ spec.is_piece_of texts name.entry.now }
{
    for place in 0..name.len() {
        if is_piece_at(components, name, place) {
            return true;
        }
    }
    false
}

/// Whether a family meets itself.
pub fn meets_itself(alloc: Global, exact: &[Text], components: &[Text]) -> Result<bool, OutOfMemory>
    ensures { IfOk result (λ meets. meets
        ≡ (spec.has_twice exact.now || list_any (spec.is_piece_of components.now) exact.now)) }
{
    if has_twice(alloc, exact)? {
        return Ok(true);
    }
    let set = set_of(alloc, components)?;
    for name in exact {
        if is_piece_of(&set, name.as_str().as_bytes()) {
            return Ok(true);
        }
    }
    Ok(false)
}

/// Whether a name is that of a piece of a component.
fn is_piece(component: &str, name: &str) -> bool
    ensures { result ≡ begins (pieces_of component.now) name.now }
{
    match name.strip_prefix(component) {
        Some(rest) => rest.as_bytes().starts_with(PIECES),
        None => false,
    }
}

/// Whether a name is that of a piece of one of these components, where only few names are asked.
fn is_piece_among(components: &[Text], name: &str) -> bool
    ensures { result ≡ spec.is_piece_of components.now name.now }
{
    for component in components {
        if is_piece(component.as_str(), name) {
            return true;
        }
    }
    false
}

/// Whether a name is in a family.
fn in_family(exact: &[Text], components: &[Text], name: &str) -> bool
    ensures { result ≡ spec.is_among exact.now components.now name.now }
{
    exact.iter().any(|other| name == other.as_str()) || is_piece_among(components, name)
}

/// Whether the archive, or the name under which it is written anew, is in a family.
pub fn meets_archive(
    alloc: Global,
    exact: &[Text],
    components: &[Text],
    archive: &Option<Text>,
) -> Result<bool, OutOfMemory>
    ensures { IfOk result (λ meets. meets ≡ option_map_or (λ name.
        spec.is_among exact.now components.now name || spec.is_among exact.now components.now (name ++ codes ".new")) archive.now false) }
{
    let Some(archive) = archive else {
        return Ok(false);
    };
    let archive = archive.as_str();
    let spare = format!(in alloc; "{archive}.new")?;
    Ok(in_family(exact, components, archive) || in_family(exact, components, spare.as_str()))
}
