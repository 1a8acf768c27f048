ghost use Rattle.std.specs.Prelude.{◌≡◌, ◌++◌, ◌==◌, if◌then◌else◌, [], IfOk, OnOk, OnErr};
ghost use Rattle.std.specs.String.{string_bytes};
ghost use Rattle.info_tree.specs.Tree as form;
ghost use Rattle.info_tree.specs.Plain.{plain};
ghost use Rattle.info_tree.specs.Json.{Reads};
ghost use Rattle.info_tree.specs.Printed.{printed, deeper, first_line, comma_text, truth_text};
ghost use Rattle.info_tree.specs.ReadsAgain.{ReadsAgain, IsSound};

use crate::escaping::push_quoted;
use crate::style::Style;
use crate::tree::{Tree, TreeList, TreeMap};
use std::alloc::Global;
use text_base::{OutOfMemory, Text, num_text};

/// The JSON text of a tree.
pub fn tree_json(alloc: Global, tree: &Tree, style: Style) -> Result<Text, OutOfMemory>
    ensures text { IfOk result (λ t. t ≡ printed style (first_line style.pretty) (plain tree.now)) }
    // The text is a JSON text of this tree, and is read as it exactly within the limits of texts.
    ensures json { IfOk result (λ t. Reads t (plain tree.now)) }
    ensures reads_again { IfOk result (ReadsAgain (plain tree.now)) }
{
    let mut out = String::new(alloc);
    push_json(alloc, &mut out, tree, style)?;
    Ok(Text::from(out))
}

/// Puts the JSON text of a tree at the end of a buffer.
///
/// # Errors
///
/// Want of memory, and then the buffer is empty.
pub fn push_json(
    alloc: Global,
    out: &mut String,
    tree: &Tree,
    style: Style,
) -> Result<(), OutOfMemory>
    ensures text { OnOk result (string_bytes out.new ≡ string_bytes out.old
        ++ printed style (first_line style.pretty) (plain tree.now)) }
    // What is printed has what the law of `tree_json` takes of a tree.
    ensures sound { OnOk result (IsSound (plain tree.now)) }
    ensures err { OnErr result (string_bytes out.new ≡ []) }
{
    let line = if style.pretty { "\n" } else { "" };
    let pushed = push_tree(alloc, out, tree, style, line);
    if pushed.is_err() {
        out.clear();
    }
    pushed
}

#[cycle(print)]
fn push_tree(
    alloc: Global,
    out: &mut String,
    tree: &Tree,
    style: Style,
    line: &str,
) -> Result<(), OutOfMemory>
    ensures out { OnOk result (string_bytes out.new ≡ string_bytes out.old
        ++ printed style line.now (plain tree.now)) }
    // What is printed has what the law of `tree_json` takes of a tree.
    ensures sound { OnOk result (IsSound (plain tree.now)) }
{
    match tree {
        Tree::Null => {
            out.push_str("null")?;
            Ok(())
        }
        Tree::Bool(value) => push_truth(out, *value),
        Tree::Num(num) => {
            out.push_str(num_text(*num).as_str())?;
            Ok(())
        }
        Tree::Text(text) => push_quoted(out, text.as_str(), style.ascii),
        Tree::List(list) => push_list(alloc, out, list, style, line),
        Tree::Map(map) => push_map(alloc, out, map, style, line),
    }
}

#[cycle(print)]
fn push_list(
    alloc: Global,
    out: &mut String,
    list: &TreeList,
    style: Style,
    line: &str,
) -> Result<(), OutOfMemory>
    ensures out { OnOk result (string_bytes out.new ≡ string_bytes out.old
        ++ printed style line.now (form.list (form.trees_of list.now))) }
    ensures sound { OnOk result (IsSound (form.list (form.trees_of list.now))) }
{
    if list.len() == 0 {
        out.push_str("[]")?;
        return Ok(());
    }
    let inner = deeper_line(alloc, style.pretty, line)?;
    out.push('[')?;
    for place in 0..list.len() {
        let Some(tree) = list.get(place) else {
            break;
        };
        push_line(out, place, style.pretty, inner.as_str())?;
        push_tree(alloc, out, tree, style, inner.as_str())?;
    }
    out.push_str(line)?;
    out.push(']')?;
    Ok(())
}

#[cycle(print)]
fn push_map(
    alloc: Global,
    out: &mut String,
    map: &TreeMap,
    style: Style,
    line: &str,
) -> Result<(), OutOfMemory>
    ensures out { OnOk result (string_bytes out.new ≡ string_bytes out.old
        ++ printed style line.now (form.mapping (form.pairs_of map.now))) }
    ensures sound { OnOk result (IsSound (form.mapping (form.pairs_of map.now))) }
{
    if map.len() == 0 {
        out.push_str("{}")?;
        return Ok(());
    }
    let inner = deeper_line(alloc, style.pretty, line)?;
    out.push('{')?;
    for place in 0..map.len() {
        let Some((key, tree)) = map.pair(place) else {
            break;
        };
        push_line(out, place, style.pretty, inner.as_str())?;
        push_quoted(out, key, style.ascii)?;
        out.push_str(": ")?;
        push_tree(alloc, out, tree, style, inner.as_str())?;
    }
    out.push_str(line)?;
    out.push('}')?;
    Ok(())
}

fn push_truth(out: &mut String, value: bool) -> Result<(), OutOfMemory>
    ensures { OnOk result (string_bytes out.new ≡ string_bytes out.old
        ++ truth_text value) }
{
    if value {
        out.push_str("true")?;
    } else {
        out.push_str("false")?;
    }
    Ok(())
}

/// The line break and the indent one level deeper.
fn deeper_line(alloc: Global, pretty: bool, line: &str) -> Result<String, OutOfMemory>
    ensures { IfOk result (λ s. string_bytes s ≡ deeper pretty line.now) }
{
    let mut inner = String::new(alloc);
    if pretty {
        inner.push_str(line)?;
        inner.push_str("    ")?;
    }
    Ok(inner)
}

/// Puts the comma behind an earlier entry, and begins the line of the entry at this place.
fn push_line(out: &mut String, place: usize, pretty: bool, line: &str) -> Result<(), OutOfMemory>
    ensures { OnOk result (string_bytes out.new ≡ string_bytes out.old
        ++ ((if place == 0 then [] else comma_text pretty) ++ line.now)) }
{
    if place != 0 {
        out.push_str(if pretty { "," } else { ", " })?;
    }
    out.push_str(line)?;
    Ok(())
}
