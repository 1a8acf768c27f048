//! What stands at an int.
ghost use Rattle.std.specs.Prelude.{◌≡◌, length, IfOk};
ghost use Rattle.std.specs.Str.{chars};
ghost use Rattle.std.specs.Option.{option_map};
ghost use Rattle.info_tree.specs.Plain.{plain};
ghost use Rattle.info_tree.specs.Tree.{text as a_text};
ghost use Rattle.std.specs.Char.{encode_utf8};
ghost use Rattle.tpl_eval.specs.Path as spec;
ghost use Rattle.info_item.specs.Found.{tree_of};

use crate::letters::{count_letters, letter_at};
use info_item::Found;
use info_tree::{Tree, TreeList};
use std::alloc::Global;
use text_base::{OutOfMemory, Text};

/// The place among so many that a number names, counted from the end where it is negative.
fn place_of(count: usize, place: i64) -> Option<usize>
    ensures { result ≡ spec.place_of count place }
{
    if place < 0 {
        count.checked_sub(place.unsigned_abs() as usize)
    } else {
        Some(place as usize)
    }
}

/// The same of the characters of a text, which are counted only where that is needed.
fn letter_place(text: &str, place: i64) -> Option<usize>
    ensures { result ≡ spec.place_of (length (chars text.now)) place }
{
    if place < 0 {
        place_of(count_letters(text), place)
    } else {
        Some(place as usize)
    }
}

/// The character at a place of a text, counted from the end where it is negative.
fn char_at(text: &str, place: i64) -> Option<char>
    ensures { result ≡ spec.element (chars text.now) place }
{
    match letter_place(text, place) {
        Some(place) => letter_at(text, place),
        None => None,
    }
}

/// The item at a place of a list, counted from the end where it is negative.
fn item_at(list: &TreeList, place: i64) -> Option<&Tree>
    ensures { option_map (λ t. plain t.now) result ≡ spec.element list.now place }
{
    list.get(place_of(list.len(), place)?)
}

/// The text of a character.
fn told(alloc: Global, letter: char) -> Result<Tree, OutOfMemory>
    ensures { IfOk result (λ t. plain t ≡ a_text (encode_utf8 letter)) }
{
    let mut text = String::new(alloc);
    text.push(letter)?;
    Ok(Tree::Text(Text::from(text)))
}

/// What stands at an int: a character, an item, or the value under its spelling.
pub(crate) fn at_int<'a>(
    alloc: Global,
    tree: &'a Tree,
    spelling: &str,
    place: i64,
) -> Result<Option<Found<'a>>, OutOfMemory>
    ensures { IfOk result (λ found. option_map tree_of found
        ≡ spec.at_int (plain tree.now) spelling.now place) }
{
    match tree {
        Tree::Text(text) => match char_at(text.as_str(), place) {
            Some(letter) => Ok(Some(Found::Made(told(alloc, letter)?))),
            None => Ok(None),
        },
        Tree::List(list) => Ok(Found::lend(item_at(list, place))),
        Tree::Map(map) => Ok(Found::lend(map.get(spelling))),
        _ => Ok(None),
    }
}
