//! The formats of an item.
ghost use Rattle.std.specs.Prelude.{◌≡◌, ◌<◌, length, slice_get, Some, IfOk, IfErr};
ghost use Rattle.info_tree.specs.Plain.{plain};
ghost use Rattle.info_item.specs.Formats as spec;

use crate::format::Format;
use crate::item_fault::ItemFault;
use crate::keys::{id_of, text_at};
use info_tree::{Keys, Tree, TreeList};
use std::alloc::Global;
use text_base::{OutOfMemory, Text};

/// The tree at a place of a list.
pub(crate) fn entry(list: &TreeList, place: usize) -> &Tree
    requires { place < length list.now }
    ensures { slice_get list.now place ≡ Some (plain result.now) }
{
    list.get(place).unwrap()
}

/// The id under the key `format_id`.
fn format_id_of(alloc: Global, tree: &Tree) -> Result<Option<Text>, OutOfMemory>
    ensures { IfOk result (λ id. id ≡ spec.format_id_of (plain tree.now)) }
{
    match tree.get("format_id") {
        Some(id) => id_of(alloc, id),
        None => Ok(None),
    }
}

/// The id of an item that is its own format.
fn own_id(alloc: Global, tree: &Tree) -> Result<Option<Text>, OutOfMemory>
    ensures { IfOk result (λ id. id ≡ spec.own_id (plain tree.now)) }
{
    match tree.get("format_id") {
        Some(id) => id_of(alloc, id),
        None => Ok(Some(Text::new(alloc, "0")?)),
    }
}

/// The formats of a list, each with an id of its own.
fn listed(alloc: Global, k: usize, list: &TreeList) -> Result<Vec<Format<'_>>, ItemFault>
    ensures formats { IfOk result (λ formats. spec.list_of k list.now ≡ Ok formats.items) }
    ensures fault { IfErr result (spec.IsFaultOf (spec.list_of k list.now)) }
{
    let mut ids = Keys::new(alloc);
    let mut formats = Vec::with_capacity(alloc, list.len())?;
    for j in 0..list.len() {
        let tree = entry(list, j);
        let Some(id) = format_id_of(alloc, tree)? else {
            return Err(ItemFault::FormatId { k, j });
        };
        if !add_id(alloc, &mut ids, id.as_str())? {
            return Err(ItemFault::FormatId { k, j });
        }
        formats.push(Format::new(alloc, tree, id)?)?;
    }
    Ok(formats)
}

/// Puts an id among those before it, and says whether it is new.
fn add_id(alloc: Global, ids: &mut Keys, id: &str) -> Result<bool, OutOfMemory>
    ensures { IfOk result (λ new. spec.PutsId ids.old ids.new id.now new) }
{
    if ids.place_of(id).is_some() {
        return Ok(false);
    }
    ids.push(String::from_str(alloc, id)?)?;
    Ok(true)
}

/// An item as its only format.
fn own_format(alloc: Global, k: usize, tree: &Tree) -> Result<Vec<Format<'_>>, ItemFault>
    ensures formats { IfOk result (λ formats.
        spec.own_format k (plain tree.now) (spec.own_id (plain tree.now)) ≡ Ok formats.items) }
    ensures fault { IfErr result (spec.IsFaultOf
        (spec.own_format k (plain tree.now) (spec.own_id (plain tree.now)))) }
{
    let Some(id) = own_id(alloc, tree)? else {
        return Err(ItemFault::FormatId { k, j: 0 });
    };
    let mut formats = Vec::new(alloc);
    formats.push(Format::new(alloc, tree, id)?)?;
    Ok(formats)
}

/// Whether an item can be its own format: it has a text `url` or a list `fragments`.
fn serves_itself(tree: &Tree) -> bool
    ensures { result ≡ spec.serves_itself (plain tree.now) }
{
    text_at(tree, "url").is_some() || matches!(tree.get("fragments"), Some(Tree::List(_)))
}

/// The formats of item `k`, or its first fault there.
pub(crate) fn formats_of(alloc: Global, k: usize, tree: &Tree) -> Result<Vec<Format<'_>>, ItemFault>
    ensures formats { IfOk result (λ formats.
        spec.formats_of k (plain tree.now) ≡ Ok formats.items) }
    ensures fault { IfErr result (spec.IsFaultOf (spec.formats_of k (plain tree.now))) }
{
    match tree.get("formats") {
        Some(Tree::List(list)) if list.len() > 0 => listed(alloc, k, list),
        None | Some(Tree::Null | Tree::List(_)) if serves_itself(tree) => {
            own_format(alloc, k, tree)
        }
        _ => Err(ItemFault::NoFormats { k }),
    }
}
