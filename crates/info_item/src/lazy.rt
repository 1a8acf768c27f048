//! The view of an item and of the formats that are to be had as one file, key by key.
ghost use Rattle.std.specs.Prelude.{◌≡◌, ◌<◌, ◌^◌, map, Some, None, IfOk, OnOk};
ghost use Rattle.std.specs.Option.{option_map};
ghost use Rattle.info_tree.specs.Plain.{plain};
ghost use Rattle.info_tree.specs.Pairs.{value_at, put as pairs_with};
ghost use Rattle.info_tree.specs.Tree.{mapping, pairs_of};
ghost use Rattle.info_item.specs.Found.{tree_of};
ghost use Rattle.info_item.specs.View as spec;

use crate::combo::Combo;
use crate::format::Format;
use crate::found::Found;
use crate::item::Item;
use crate::merged::{
    PARTS_KEY, are_several, is_shared, list_of, parts_of, put, shared, shared_maps,
};
use crate::whole::{base, put_all};
use info_tree::{Tree, TreeMap};
use std::alloc::Global;
use std::marker::Model;
use text_base::{Num, OutOfMemory, Text};

/// An item's map with what the parts of one file put over it, without a copy of the item.
#[derive(Drop)]
pub struct View<'a> {
    item: &'a Tree,
    /// The map of the only part.
    part: Option<&'a Tree>,
    /// Whether there are several parts.
    is_merged: bool,
    /// The pairs that go over those of the item and the part.
    own: TreeMap,
    /// The maps of several parts, whose list is made when it is asked for. It has its place among
    /// the own pairs.
    maps: Option<Vec<&'a Tree>>,
}

impl<'a> Model for View<'a> {
    ghost use Rattle.std.specs.Prelude.{List, ℕ, map};
    ghost use Rattle.std.specs.Option.{option_map};
    ghost use Rattle.info_tree.specs.Tree.{Tree as Plain};
    ghost use Rattle.info_tree.specs.TreeCode.{coded_pairs};
    ghost use Rattle.info_tree.specs.Plain.{plain};
    ghost use Rattle.info_item.specs.View.{over, base_of, own_with, HasPlace};

    ghost Value = { List (List ℕ × Plain) };

    ghost coded = { coded_pairs };

    ghost view = { λ v. over (base_of v.is_merged (plain v.item.now) (option_map (λ t. plain t.now) v.part))
        (own_with (option_map (λ w. map (λ t. plain t.now) w.items) v.maps) v.own) };

    ghost invariant = { λ v. HasPlace (option_map (λ w. map (λ t. plain t.now) w.items) v.maps) v.own };
}

impl<'a> View<'a> {
    /// The view of an item with its number, where the parts of the combination are to be had as
    /// one file.
    pub fn new(
        alloc: Global,
        item: &'a Item<'_>,
        combo: &Combo,
        number: u64,
    ) -> Result<View<'a>, OutOfMemory>
        requires { number < 2 ^ 63 }
        ensures { IfOk result (λ v. v ≡ spec.view_of item.now combo.now number) }
    {
        let parts = parts_of(alloc, item.formats(), &combo.parts)?;
        let own = own_pairs(alloc, &parts, combo.ext.as_str(), number)?;
        let maps = shared_maps(alloc, &parts)?;
        Ok(View {
            item: item.tree(),
            part: only_part(&parts),
            is_merged: are_several(&parts),
            own,
            maps,
        })
    }

    /// The value under a key. The list of the parts' maps is made.
    pub fn get(&self, alloc: Global, key: &str) -> Result<Option<Found<'_>>, OutOfMemory>
        ensures { IfOk result (λ found. option_map tree_of found ≡ value_at self.now key.now) }
    {
        match self.own.get(key) {
            Some(value) => own_value(alloc, &self.maps, key, value),
            None => Ok(Found::lend(below(self.item, self.part, self.is_merged, key))),
        }
    }

    /// Puts a tree under a key: a key that is there keeps its place.
    pub fn put(&mut self, alloc: Global, key: &str, tree: Tree) -> Result<(), OutOfMemory>
        ensures { OnOk result (self.new ≡ pairs_with self.old key.now (plain tree)) }
    {
        put(alloc, &mut self.own, key, tree)?;
        self.maps = kept_maps(self.maps.take(), key);
        Ok(())
    }

    /// The whole map.
    pub fn tree(&self, alloc: Global) -> Result<Tree, OutOfMemory>
        ensures { IfOk result (λ t. plain t ≡ mapping (pairs_of self.now)) }
    {
        let mut pairs = base(alloc, self.item, self.part, self.is_merged)?;
        put_all(alloc, &mut pairs, &self.own)?;
        put_maps(alloc, &mut pairs, &self.maps)?;
        Ok(Tree::Map(pairs))
    }
}

/// The own pairs of a new view.
fn own_pairs(
    alloc: Global,
    parts: &Vec<&Format<'_>>,
    ext: &str,
    number: u64,
) -> Result<TreeMap, OutOfMemory>
    requires { number < 2 ^ 63 }
    ensures { IfOk result (λ own. own ≡ spec.begun_of (map (λ f. f.now) parts.now.items) ext.now number) }
{
    let mut own = shared(alloc, parts)?;
    put(alloc, &mut own, "ext", Tree::Text(Text::new(alloc, ext)?))?;
    put(
        alloc,
        &mut own,
        "autonumber",
        Tree::Num(Num::Int(number as i64)),
    )?;
    Ok(own)
}

/// What is left of the parts' maps once a pair was put under a key.
fn kept_maps<'a>(maps: Option<Vec<&'a Tree>>, key: &str) -> Option<Vec<&'a Tree>>
    ensures { option_map (λ w. map (λ t. plain t.now) w.items) result
        ≡ spec.kept_maps (option_map (λ w. map (λ t. plain t.now) w.items) maps.entry) key.now }
{
    if key == PARTS_KEY { None } else { maps }
}

/// The value of an own pair: under its key the list of the parts' maps.
fn own_value<'a>(
    alloc: Global,
    maps: &Option<Vec<&Tree>>,
    key: &str,
    value: &'a Tree,
) -> Result<Option<Found<'a>>, OutOfMemory>
    ensures { IfOk result (λ found. option_map tree_of found
        ≡ Some (spec.own_value (option_map (λ w. map (λ t. plain t.now) w.items) maps.now) key.now (plain value.now))) }
{
    match maps {
        Some(maps) => listed_value(alloc, maps, key, value),
        None => Ok(Some(Found::Lent(value))),
    }
}

fn listed_value<'a>(
    alloc: Global,
    maps: &Vec<&Tree>,
    key: &str,
    value: &'a Tree,
) -> Result<Option<Found<'a>>, OutOfMemory>
    ensures { IfOk result (λ found. option_map tree_of found
        ≡ Some (spec.own_value (Some (map (λ t. plain t.now) maps.now.items)) key.now (plain value.now))) }
{
    if key == PARTS_KEY {
        Ok(Some(Found::Made(list_of(alloc, maps)?)))
    } else {
        Ok(Some(Found::Lent(value)))
    }
}

/// Puts the list of the parts' maps.
fn put_maps(
    alloc: Global,
    pairs: &mut TreeMap,
    maps: &Option<Vec<&Tree>>,
) -> Result<(), OutOfMemory>
    ensures { OnOk result (pairs.new
        ≡ spec.own_with (option_map (λ w. map (λ t. plain t.now) w.items) maps.now) pairs.old) }
{
    match maps {
        Some(maps) => put(alloc, pairs, PARTS_KEY, list_of(alloc, maps)?),
        None => Ok(()),
    }
}

/// The only part's map.
fn only_part<'a>(parts: &Vec<&'a Format<'_>>) -> Option<&'a Tree>
    ensures { option_map (λ t. plain t.now) result
        ≡ spec.only_part (map (λ f. f.now) parts.now.items) }
{
    match parts.as_slice() {
        [part] => Some(part.tree()),
        _ => None,
    }
}

/// What stands under a key of a part, or else of the item.
fn over_item<'a>(item: &'a Tree, part: &'a Tree, key: &str) -> Option<&'a Tree>
    ensures { option_map (λ t. plain t.now) result
        ≡ value_at (spec.over (spec.map_pairs (plain item.now)) (spec.map_pairs (plain part.now))) key.now }
{
    match part {
        Tree::Map(pairs) => match pairs.get(key) {
            Some(value) => Some(value),
            None => item.get(key),
        },
        _ => item.get(key),
    }
}

/// What stands under a key of the item, but for those that several parts share.
fn unshared<'a>(item: &'a Tree, key: &str) -> Option<&'a Tree>
    ensures { option_map (λ t. plain t.now) result
        ≡ value_at (spec.others (spec.map_pairs (plain item.now))) key.now }
{
    if is_shared(key) {
        return None;
    }
    item.get(key)
}

/// What stands under a key of the item.
fn in_item<'a>(item: &'a Tree, is_merged: bool, key: &str) -> Option<&'a Tree>
    ensures { option_map (λ t. plain t.now) result
        ≡ value_at (spec.base_of is_merged (plain item.now) None) key.now }
{
    if is_merged {
        unshared(item, key)
    } else {
        item.get(key)
    }
}

/// What stands under a key below the pairs of the view's own.
fn below<'a>(item: &'a Tree, part: Option<&'a Tree>, is_merged: bool, key: &str) -> Option<&'a Tree>
    ensures { option_map (λ t. plain t.now) result
        ≡ value_at (spec.base_of is_merged (plain item.now) (option_map (λ t. plain t.now) part.entry)) key.now }
{
    match part {
        Some(part) => over_item(item, part, key),
        None => in_item(item, is_merged, key),
    }
}
