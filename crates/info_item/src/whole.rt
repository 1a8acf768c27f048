//! The whole view of an item and of the formats that are to be had as one file.
ghost use Rattle.std.specs.Prelude.{◌≡◌, ◌<◌, ◌^◌, length, slice_get, Some, None, IfOk, OnOk};
ghost use Rattle.std.specs.Option.{option_map};
ghost use Rattle.info_tree.specs.Plain.{plain};
ghost use Rattle.info_tree.specs.Pairs.{HaveDistinctKeys};
ghost use Rattle.info_tree.specs.Tree.{mapping, pairs_of};
ghost use Rattle.info_item.specs.View as spec;

use crate::combo::Combo;
use crate::item::Item;
use crate::lazy::View;
use crate::merged::{is_shared, put};
use info_tree::{Tree, TreeMap};
use std::alloc::Global;
use text_base::OutOfMemory;

/// The whole view of an item with its number, where the parts of the combination are to be had
/// as one file.
pub fn view(alloc: Global, item: &Item<'_>, combo: &Combo, number: u64) -> Result<Tree, OutOfMemory>
    requires { number < 2 ^ 63 }
    ensures { IfOk result (λ t. plain t ≡ mapping (pairs_of (spec.view_of item.now combo.now number))) }
{
    View::new(alloc, item, combo, number)?.tree(alloc)
}

/// The pair at a place.
fn pair_at(pairs: &TreeMap, place: usize) -> (&str, &Tree)
    requires { place < length pairs.now }
    ensures { slice_get pairs.now place ≡ Some (result.0.now, plain result.1.now) }
{
    pairs.pair(place).unwrap()
}

/// Puts a copy of each pair of a map among others.
pub(crate) fn put_all(alloc: Global, pairs: &mut TreeMap, more: &TreeMap) -> Result<(), OutOfMemory>
    ensures over { OnOk result (pairs.new ≡ spec.over pairs.old more.now) }
    ensures distinct { OnOk result (HaveDistinctKeys more.now) }
{
    for place in 0..more.len() {
        let (key, tree) = pair_at(more, place);
        put(alloc, pairs, key, tree.copy(alloc)?)?;
    }
    Ok(())
}

/// Puts a copy of a tree under a key that several parts do not share.
fn put_other(alloc: Global, pairs: &mut TreeMap, key: &str, tree: &Tree) -> Result<(), OutOfMemory>
    ensures { OnOk result (pairs.new ≡ spec.put_other pairs.old key.now (plain tree.now)) }
{
    if is_shared(key) {
        return Ok(());
    }
    put(alloc, pairs, key, tree.copy(alloc)?)
}

/// A copy of the pairs that several parts do not share.
fn others(alloc: Global, pairs: &TreeMap) -> Result<TreeMap, OutOfMemory>
    ensures { IfOk result (λ copied. copied ≡ spec.others pairs.now) }
{
    let mut copied = TreeMap::new(alloc);
    for place in 0..pairs.len() {
        let (key, tree) = pair_at(pairs, place);
        put_other(alloc, &mut copied, key, tree)?;
    }
    Ok(copied)
}

/// Puts a copy of each pair of a tree that is a map.
fn put_map(alloc: Global, pairs: &mut TreeMap, tree: &Tree) -> Result<(), OutOfMemory>
    ensures { OnOk result (pairs.new ≡ spec.over pairs.old (spec.map_pairs (plain tree.now))) }
{
    match tree {
        Tree::Map(more) => put_all(alloc, pairs, more),
        _ => Ok(()),
    }
}

/// A copy of the pairs of a tree that is a map.
fn copy_map(alloc: Global, tree: &Tree) -> Result<TreeMap, OutOfMemory>
    ensures { IfOk result (λ pairs. pairs ≡ spec.map_pairs (plain tree.now)) }
{
    match tree.copy(alloc)? {
        Tree::Map(pairs) => Ok(pairs),
        _ => Ok(TreeMap::new(alloc)),
    }
}

/// A copy of the pairs of a tree that is a map, but for those that several parts share.
fn copy_others(alloc: Global, tree: &Tree) -> Result<TreeMap, OutOfMemory>
    ensures { IfOk result (λ pairs. pairs ≡ spec.others (spec.map_pairs (plain tree.now))) }
{
    match tree {
        Tree::Map(pairs) => others(alloc, pairs),
        _ => Ok(TreeMap::new(alloc)),
    }
}

/// A copy of the item's pairs.
fn copy_item(alloc: Global, item: &Tree, is_merged: bool) -> Result<TreeMap, OutOfMemory>
    ensures { IfOk result (λ pairs. pairs ≡ spec.base_of is_merged (plain item.now) None) }
{
    if is_merged {
        copy_others(alloc, item)
    } else {
        copy_map(alloc, item)
    }
}

/// A copy of what lies below the pairs of the view's own.
pub(crate) fn base(
    alloc: Global,
    item: &Tree,
    part: Option<&Tree>,
    is_merged: bool,
) -> Result<TreeMap, OutOfMemory>
    ensures { IfOk result (λ pairs. pairs
        ≡ spec.base_of is_merged (plain item.now) (option_map (λ t. plain t.now) part.entry)) }
{
    match part {
        Some(part) => {
            let mut pairs = copy_map(alloc, item)?;
            put_map(alloc, &mut pairs, part)?;
            Ok(pairs)
        }
        None => copy_item(alloc, item, is_merged),
    }
}
