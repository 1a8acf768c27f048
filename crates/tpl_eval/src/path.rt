//! What stands at a path.
ghost use Rattle.std.specs.Prelude.{◌≡◌, ◌<◌, ◌∷◌, [], ◌++◌, map, length, slice_get, Some, IfOk, OnOk};
ghost use Rattle.std.specs.List.{cons_option};
ghost use Rattle.std.specs.Option.{option_map, option_and_then};
ghost use Rattle.std.specs.Str.{chars};
ghost use Rattle.info_tree.specs.Plain.{plain};
ghost use Rattle.info_tree.specs.Pairs.{member};
ghost use Rattle.tpl_eval.specs.Path as spec;
ghost use Rattle.tpl_eval.specs.Steps.{led};
ghost use Rattle.tpl_eval.specs.Slice.{sliced as sliced_of};
ghost use Rattle.info_item.specs.Found.{tree_of};

use crate::braces::at_braces;
use crate::int::at_int;
use crate::letters::letters_of;
use crate::slice::sliced;
use info_item::{Found, Values};
use info_tree::{Tree, TreeList};
use std::alloc::Global;
use text_base::{OutOfMemory, Text};
use tpl_lang::{Key, Path, Slice};

/// The text of characters.
fn told(alloc: Global, letters: &[char]) -> Result<Tree, OutOfMemory>
    ensures { IfOk result (λ t. plain t ≡ spec.told letters.now) }
{
    let mut text = String::new(alloc);
    for letter in letters {
        text.push(*letter)?;
    }
    Ok(Tree::Text(Text::from(text)))
}

/// The text of a slice of a text.
fn text_slice(alloc: Global, text: &str, slice: &Slice) -> Result<Tree, OutOfMemory>
    ensures { IfOk result (λ t. plain t ≡ spec.told (sliced_of slice.now (chars text.now))) }
{
    let letters = letters_of(alloc, text)?;
    let kept = sliced(alloc, &letters, slice)?;
    told(alloc, &kept)
}

/// The item at a place of a list.
fn item(list: &TreeList, place: usize) -> &Tree
    requires { place < length list.now }
    ensures { slice_get list.now place ≡ Some (plain result.now) }
{
    list.get(place).unwrap()
}

/// The items of a list.
fn items_of(alloc: Global, list: &TreeList) -> Result<Vec<&Tree>, OutOfMemory>
    ensures { IfOk result (λ items. map (λ t. plain t.now) items.items ≡ list.now) }
{
    let mut items = Vec::with_capacity(alloc, list.len())?;
    for place in 0..list.len() {
        items.push(item(list, place))?;
    }
    Ok(items)
}

/// Puts a value last, where there is one.
fn push_found(
    alloc: Global,
    told: &mut TreeList,
    found: Option<Found<'_>>,
) -> Result<(), OutOfMemory>
    ensures { OnOk result (told.new ≡ told.old ++ cons_option (option_map tree_of found.entry) []) }
{
    match found {
        Some(found) => Ok(told.push(found.made(alloc)?)?),
        None => Ok(()),
    }
}

/// A slice of a list: what stands at the further keys of its items, where something does.
#[cycle(keys)]
fn list_slice(
    alloc: Global,
    list: &TreeList,
    slice: &Slice,
    keys: &[Key],
) -> Result<Tree, OutOfMemory>
    ensures { IfOk result (λ t. plain t ≡ spec.list_slice list.now slice.now (spec.at_keys keys.now)) }
{
    let items = items_of(alloc, list)?;
    let kept = sliced(alloc, &items, slice)?;
    let mut told = TreeList::new(alloc);
    for item in &kept {
        push_found(alloc, &mut told, at_keys(alloc, Found::Lent(*item), keys)?)?;
    }
    Ok(Tree::List(told))
}

/// A value that was made, where there is one.
fn made<'a>(tree: Option<Tree>) -> Option<Found<'a>>
    ensures { option_map tree_of result ≡ option_map plain tree }
{
    match tree {
        Some(tree) => Some(Found::Made(tree)),
        None => None,
    }
}

/// What stands at one key of a tree, but for a slice of a list.
fn at_key<'a>(alloc: Global, tree: &'a Tree, key: &Key) -> Result<Option<Found<'a>>, OutOfMemory>
    ensures { IfOk result (λ found. option_map tree_of found ≡ spec.at_key key.now (plain tree.now)) }
{
    match key {
        Key::Int { spelling, place } => at_int(alloc, tree, spelling.as_str(), *place),
        Key::Word(word) => Ok(Found::lend(tree.get(word.as_str()))),
        Key::Braces(words) => Ok(made(at_braces(alloc, tree, words)?)),
        Key::Slice(slice) => match tree {
            Tree::Text(text) => Ok(Some(Found::Made(text_slice(alloc, text.as_str(), slice)?))),
            _ => Ok(None),
        },
    }
}

/// The same of a value that may have been made: what is lent of that is copied.
fn next<'a>(alloc: Global, found: Found<'a>, key: &Key) -> Result<Option<Found<'a>>, OutOfMemory>
    ensures { IfOk result (λ f. option_map tree_of f ≡ spec.at_key key.now (tree_of found.entry)) }
{
    match found {
        Found::Lent(tree) => at_key(alloc, tree, key),
        Found::Made(tree) => match at_key(alloc, &tree, key)? {
            Some(further) => Ok(Some(Found::Made(further.made(alloc)?))),
            None => Ok(None),
        },
    }
}

/// Where a key leads.
#[derive(Drop)]
enum Step<'a> {
    /// To a value, at which the further keys are looked for, or to none.
    Next(Option<Found<'a>>),
    /// To the end: the further keys were looked for in each item of a list.
    Last(Tree),
}

/// Where a key with others behind it leads.
#[cycle(keys)]
fn key_step<'a>(
    alloc: Global,
    found: Found<'a>,
    key: &Key,
    rest: &[Key],
) -> Result<Step<'a>, OutOfMemory>
    ensures { IfOk result (λ s. spec.at_keys (key.now ∷ rest.now) (tree_of found.entry) ≡ led rest.now s) }
{
    match key {
        Key::Slice(slice) => slice_step(alloc, found, key, slice, rest),
        _ => Ok(Step::Next(next(alloc, found, key)?)),
    }
}

/// Where a slice with keys behind it leads.
#[cycle(keys)]
fn slice_step<'a>(
    alloc: Global,
    found: Found<'a>,
    key: &Key,
    slice: &Slice,
    rest: &[Key],
) -> Result<Step<'a>, OutOfMemory>
    requires { key.now ≡ Key.Slice slice.now }
    ensures { IfOk result (λ s. spec.at_keys (key.now ∷ rest.now) (tree_of found.entry) ≡ led rest.now s) }
{
    match found.tree() {
        Tree::List(list) => Ok(Step::Last(list_slice(alloc, list, slice, rest)?)),
        _ => Ok(Step::Next(next(alloc, found, key)?)),
    }
}

/// What stands at keys, one after another.
#[cycle(keys)]
fn at_keys<'a>(
    alloc: Global,
    first: Found<'a>,
    keys: &[Key],
) -> Result<Option<Found<'a>>, OutOfMemory>
    ensures { IfOk result (λ found. option_map tree_of found ≡ spec.at_keys keys.now (tree_of first.entry)) }
{
    let mut found = first;
    let mut left = keys;
    while let Some((key, rest)) = left.split_first() {
        match key_step(alloc, found, key, rest)? {
            Step::Next(Some(further)) => found = further,
            Step::Next(None) => return Ok(None),
            Step::Last(tree) => return Ok(Some(Found::Made(tree))),
        }
        left = rest;
    }
    Ok(Some(found))
}

/// What stands at keys of the whole. A word or braces in front need no copy of it.
fn in_whole<'a, V: Values>(
    alloc: Global,
    values: &'a V,
    keys: &[Key],
) -> Result<Option<Found<'a>>, OutOfMemory>
    ensures { IfOk result (λ found. option_map tree_of found ≡ spec.at_keys keys.now (V.tree values.now)) }
{
    match keys.split_first() {
        Some((Key::Word(word), rest)) => behind(alloc, values.get(alloc, word.as_str())?, rest),
        Some((Key::Braces(words), rest)) => behind(
            alloc,
            made(at_braces(alloc, values, words)?),
            rest,
        ),
        _ => at_keys(alloc, Found::Made(values.whole(alloc)?), keys),
    }
}

/// What stands at keys of a value that may be absent.
fn behind<'a>(
    alloc: Global,
    found: Option<Found<'a>>,
    keys: &[Key],
) -> Result<Option<Found<'a>>, OutOfMemory>
    ensures { IfOk result (λ f. option_map tree_of f
        ≡ option_and_then (spec.at_keys keys.now) (option_map tree_of found.entry)) }
{
    match found {
        Some(found) => at_keys(alloc, found, keys),
        None => Ok(None),
    }
}

/// What stands at a path.
pub(crate) fn at_path<'a, V: Values>(
    alloc: Global,
    values: &'a V,
    path: &Path,
) -> Result<Option<Found<'a>>, OutOfMemory>
    ensures { IfOk result (λ found. option_map tree_of found ≡ spec.at_path (V.tree values.now) path.now) }
{
    if path.word().is_empty() {
        in_whole(alloc, values, path.keys())
    } else {
        behind(alloc, values.get(alloc, path.word())?, path.keys())
    }
}
