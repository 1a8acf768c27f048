//! What formats tell: texts, fragments, and which of them are the parts of a file.
ghost use Rattle.std.specs.Prelude.{◌≡◌, ◌<◌, IfOk, Some, length, map, option_map, slice_get};
ghost use Rattle.info_item.specs.Fields.{text_at};
ghost use Rattle.info_item.specs.View as view;
ghost use Rattle.info_tree.specs.Plain.{plain};
ghost use Rattle.job_pieces.specs.Pieces.{fragments_of};

use info_item::Format;
use info_tree::{Tree, TreeList};
use std::alloc::Global;
use text_base::OutOfMemory;

/// The text under a key.
pub(crate) fn text_at<'a>(tree: &'a Tree, key: &str) -> Option<&'a str>
    ensures { option_map (λ t. t.now) result ≡ text_at (plain tree.now) key.now }
{
    tree.get(key)?.as_text()
}

/// The fragments of a format, where it has a list of them.
pub fn fragments_of(format: &Tree) -> Option<&TreeList>
    ensures { option_map (λ list. list.now) result ≡ fragments_of (plain format.now) }
{
    match format.get("fragments") {
        Some(Tree::List(list)) => Some(list),
        _ => None,
    }
}

/// The tree at a place of a list.
pub(crate) fn tree_at(list: &TreeList, place: usize) -> &Tree
    requires { place < length list.now }
    ensures { slice_get list.now place ≡ Some (plain result.now) }
{
    list.get(place).unwrap()
}

/// The format at a place.
fn format_at<'a, 'b>(formats: &'a [Format<'b>], place: usize) -> Option<&'a Format<'b>>
    ensures { option_map (λ f. f.now) result ≡ slice_get formats.now place }
{
    formats.get(place)
}

/// The formats at these places.
pub fn parts_of<'a, 'b>(
    alloc: Global,
    formats: &'a [Format<'b>],
    places: &[usize],
) -> Result<Vec<&'a Format<'b>>, OutOfMemory>
    ensures { IfOk result (λ parts. map (λ f. f.now) parts.items ≡ view.parts_of formats.now places.now) }
{
    let mut parts = Vec::with_capacity(alloc, places.len())?;
    for place in places {
        let Some(part) = format_at(formats, *place) else {
            continue;
        };
        parts.push(part)?;
    }
    Ok(parts)
}
