//! What stands under the keys of a map.
ghost use Rattle.std.specs.Prelude.{◌≡◌, IfOk};
ghost use Rattle.std.specs.Option.{option_map};
ghost use Rattle.text_base.specs.Number.{number_of as value_of};
ghost use Rattle.info_tree.specs.Plain.{plain};
ghost use Rattle.info_item.specs.Fields as fields;

use info_tree::Tree;
use std::alloc::Global;
use text_base::{Num, OutOfMemory, Text};

/// The text under a key.
pub(crate) fn text_at<'a>(tree: &'a Tree, key: &str) -> Option<&'a str>
    ensures { option_map (λ t. t.now) result ≡ fields.text_at (plain tree.now) key.now }
{
    tree.get(key)?.as_text()
}

/// The number under a key.
pub(crate) fn number_at(tree: &Tree, key: &str) -> Option<Num>
    ensures { option_map value_of result ≡ fields.number_at (plain tree.now) key.now }
{
    tree.get(key)?.as_number()
}

/// Whether the codec under a key says that its stream is missing.
pub(crate) fn is_missing(tree: &Tree, key: &str) -> bool
    ensures { result ≡ fields.is_missing (fields.text_at (plain tree.now) key.now) }
{
    match text_at(tree, key) {
        Some(codec) => codec == "none",
        None => false,
    }
}

/// The text that is kept, if any.
pub(crate) fn text_within(text: &Option<Text>) -> Option<&str>
    ensures { option_map (λ t. t.now) result ≡ text.now }
{
    text.as_ref().map(Text::as_str)
}

/// The id that a tree is: a text that is not empty, or a whole number as its decimal text.
pub(crate) fn id_of(alloc: Global, tree: &Tree) -> Result<Option<Text>, OutOfMemory>
    ensures { IfOk result (λ id. id ≡ fields.id_of (plain tree.now)) }
{
    match tree {
        Tree::Text(text) => id_text(alloc, text.as_str()),
        Tree::Num(Num::Int(number)) => {
            let digits = format!(in alloc; "{number}")?;
            Ok(Some(Text::from(digits)))
        }
        _ => Ok(None),
    }
}

fn id_text(alloc: Global, text: &str) -> Result<Option<Text>, OutOfMemory>
    ensures { IfOk result (λ id. id ≡ fields.not_empty text.now) }
{
    if text.is_empty() {
        return Ok(None);
    }
    Ok(Some(Text::new(alloc, text)?))
}

/// Whether a text has a control character of ASCII.
pub(crate) fn has_controls(text: &str) -> bool
    ensures { result ≡ fields.has_controls text.now }
{
    text.as_bytes().iter().any(|byte| byte.is_ascii_control())
}
