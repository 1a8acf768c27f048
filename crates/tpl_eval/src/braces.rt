//! The keys in braces.
ghost use Rattle.std.specs.Prelude.{◌≡◌, [], IfOk, OnOk};
ghost use Rattle.std.specs.Option.{option_map};
ghost use Rattle.info_tree.specs.Plain.{plain};
ghost use Rattle.info_tree.specs.Tree.{mapping, pairs_of};
ghost use Rattle.info_tree.specs.Pairs.{member};
ghost use Rattle.info_item.specs.View.{is_mapping};
ghost use Rattle.tpl_eval.specs.Path as spec;

use info_item::Values;
use info_tree::{Tree, TreeMap};
use std::alloc::Global;
use text_base::{OutOfMemory, Text};
use tpl_lang::Words;

/// Puts the value of a word last, where it has one and the word was not named before.
fn pick<V: Values>(
    alloc: Global,
    values: &V,
    picked: &mut TreeMap,
    word: &str,
) -> Result<(), OutOfMemory>
    ensures { OnOk result (picked.new ≡ spec.pick (member (V.tree values.now)) picked.old word.now) }
{
    if picked.get(word).is_some() {
        return Ok(());
    }
    match values.get(alloc, word)? {
        Some(found) => picked.put(Text::new(alloc, word)?, found.made(alloc)?),
        None => Ok(()),
    }
}

/// The map of the pairs that are there, each where its word is first named.
pub(crate) fn at_braces<V: Values>(
    alloc: Global,
    values: &V,
    words: &Words,
) -> Result<Option<Tree>, OutOfMemory>
    ensures { IfOk result (λ t. option_map plain t ≡ spec.at_braces (V.tree values.now) words.now) }
{
    if !values.is_map() {
        return Ok(None);
    }
    let mut picked = TreeMap::new(alloc);
    for word in words.as_slice() {
        pick(alloc, values, &mut picked, word.as_str())?;
    }
    Ok(Some(Tree::Map(picked)))
}
