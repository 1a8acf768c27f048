ghost use Rattle.std.specs.Prelude.{◌≡◌, [], ◌∷◌, IfOk, IfErr};
ghost use Rattle.info_tree.specs.Plain.{plain};
ghost use Rattle.info_item.specs.Formats.{IsFaultOf};
ghost use Rattle.info_item.specs.Items as spec;

use crate::formats::{entry, formats_of};
use crate::item::Item;
use crate::item_fault::ItemFault;
use crate::keys::{has_controls, id_of};
use crate::line::line_of;
use info_tree::{Tree, TreeList};
use std::alloc::Global;
use text_base::{OutOfMemory, Text};

/// The id of an item.
fn item_id_of(alloc: Global, tree: &Tree) -> Result<Option<Text>, OutOfMemory>
    ensures { IfOk result (λ id. id ≡ spec.item_id_of (plain tree.now)) }
{
    let Some(tree) = tree.get("id") else {
        return Ok(None);
    };
    let Some(id) = id_of(alloc, tree)? else {
        return Ok(None);
    };
    if has_controls(id.as_str()) {
        return Ok(None);
    }
    Ok(Some(id))
}

/// The item that entry `k` is, or its first fault.
fn read_item(alloc: Global, k: usize, tree: &Tree) -> Result<Item<'_>, ItemFault>
    ensures item { IfOk result (λ item. spec.item_of k (plain tree.now) ≡ Ok item) }
    ensures fault { IfErr result (IsFaultOf (spec.item_of k (plain tree.now))) }
{
    let Tree::Map(_) = tree else {
        return Err(ItemFault::NotItem { k });
    };
    let Some(id) = item_id_of(alloc, tree)? else {
        return Err(ItemFault::NoId { k });
    };
    let formats = formats_of(alloc, k, tree)?;
    let line = line_of(alloc, tree, id.as_str())?;
    Ok(Item::new(tree, id, line, formats))
}

/// The items of a list, or the fault of the first faulty one.
fn read_list(alloc: Global, list: &TreeList) -> Result<Vec<Item<'_>>, ItemFault>
    ensures items { IfOk result (λ items. spec.list_of list.now ≡ Ok items.items) }
    ensures fault { IfErr result (IsFaultOf (spec.list_of list.now)) }
{
    let mut items = Vec::with_capacity(alloc, list.len())?;
    for k in 0..list.len() {
        items.push(read_item(alloc, k, entry(list, k))?)?;
    }
    Ok(items)
}

/// The only item.
fn read_one(alloc: Global, tree: &Tree) -> Result<Vec<Item<'_>>, ItemFault>
    ensures items { IfOk result (λ items. spec.list_of (plain tree.now ∷ []) ≡ Ok items.items) }
    ensures fault { IfErr result (IsFaultOf (spec.list_of (plain tree.now ∷ []))) }
{
    let mut items = Vec::new(alloc);
    items.push(read_item(alloc, 0, tree)?)?;
    Ok(items)
}

/// The items of a tree in order, or the fault of the first faulty one.
///
/// # Errors
///
/// The fault of the first faulty item, or want of memory.
pub fn read_items(alloc: Global, tree: &Tree) -> Result<Vec<Item<'_>>, ItemFault>
    // What is read is the tree's items, and a tree with a fault is refused by it.
    ensures items { IfOk result (λ items. spec.items_of (plain tree.now) ≡ Ok items.items) }
    ensures fault { IfErr result (IsFaultOf (spec.items_of (plain tree.now))) }
{
    match tree {
        Tree::List(list) => read_list(alloc, list),
        _ => read_one(alloc, tree),
    }
}
