//! The values of a list, one behind another.
ghost use Rattle.std.specs.Prelude.{◌≡◌, ◌<◌, ◌++◌, ◌==◌, [], length, slice_get, if◌then◌else◌, Some, IfOk, OnOk};
ghost use Rattle.std.specs.List.{join_by};
ghost use Rattle.std.specs.String.{string_bytes};
ghost use Rattle.info_tree.specs.Plain.{plain};
ghost use Rattle.field_text.specs.Plain as spec;

use crate::plain::{plain_text, push_plain};
use info_tree::{Tree, TreeList};
use name_text::shell_quote;
use std::alloc::Global;
use text_base::{OutOfMemory, Text};

/// How a value stands in a list.
#[derive(Clone, Copy, Debug, PartialEq, Eq)]
pub enum Item {
    /// Its plain text.
    Plain,
    /// Its plain text as one word of a shell.
    Quoted,
}

/// The texts of a list's values, with a text between two. Any other value is a list of one.
pub fn list_text(
    alloc: Global,
    item: Item,
    between: &str,
    value: &Tree,
) -> Result<Text, OutOfMemory>
    ensures { IfOk result (λ t. t ≡ spec.listed item between.now (plain value.now)) }
{
    let mut out = String::new(alloc);
    push_values(alloc, &mut out, item, between, value)?;
    Ok(Text::from(out))
}

fn push_values(
    alloc: Global,
    out: &mut String,
    item: Item,
    between: &str,
    value: &Tree,
) -> Result<(), OutOfMemory>
    ensures { OnOk result (string_bytes out.new
        ≡ string_bytes out.old ++ spec.listed item between.now (plain value.now)) }
{
    match value {
        Tree::List(list) => push_list(alloc, out, item, between, list),
        _ => push_item(alloc, out, item, value),
    }
}

fn push_list(
    alloc: Global,
    out: &mut String,
    item: Item,
    between: &str,
    list: &TreeList,
) -> Result<(), OutOfMemory>
    ensures { OnOk result (string_bytes out.new
        ≡ string_bytes out.old ++ join_by (spec.item_text item) between.now list.now) }
{
    for place in 0..list.len() {
        push_between(out, place, between)?;
        push_item(alloc, out, item, value_at(list, place))?;
    }
    Ok(())
}

/// Appends what stands before the value at a place.
fn push_between(out: &mut String, place: usize, between: &str) -> Result<(), OutOfMemory>
    ensures { OnOk result (string_bytes out.new
        ≡ string_bytes out.old ++ (if place == 0 then [] else between.now)) }
{
    if place > 0 {
        out.push_str(between)?;
    }
    Ok(())
}

fn push_item(alloc: Global, out: &mut String, item: Item, value: &Tree) -> Result<(), OutOfMemory>
    ensures { OnOk result (string_bytes out.new
        ≡ string_bytes out.old ++ spec.item_text item (plain value.now)) }
{
    match item {
        Item::Plain => push_plain(alloc, out, value),
        Item::Quoted => {
            let word = shell_quote(alloc, plain_text(alloc, value)?.as_str())?;
            out.push_str(word.as_str())?;
            Ok(())
        }
    }
}

/// The value at a place.
fn value_at(list: &TreeList, place: usize) -> &Tree
    requires { place < length list.now }
    ensures { slice_get list.now place ≡ Some (plain result.now) }
{
    list.get(place).unwrap()
}
