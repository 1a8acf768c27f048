//! An item's line in an archive.
ghost use Rattle.std.specs.Prelude.{◌≡◌, IfOk};
ghost use Rattle.std.specs.Option.{option_map};
ghost use Rattle.info_tree.specs.Plain.{plain};
ghost use Rattle.info_item.specs.Fields as fields;

use crate::keys::{has_controls, text_at};
use info_tree::Tree;
use std::alloc::Global;
use text_base::{OutOfMemory, Text, without_last_spaces};

/// Whether a text has white space.
fn has_space(text: &str) -> bool
    ensures { result ≡ fields.has_space text.now }
{
    text.chars().any(|c| c.is_whitespace())
}

/// Whether a text names a site.
fn is_site_name(name: &str) -> bool
    ensures { result ≡ fields.is_site_name name.now }
{
    !name.is_empty() && !has_space(name) && !has_controls(name)
}

/// The text under a key, where it names a site.
fn site_name<'a>(tree: &'a Tree, key: &str) -> Option<&'a str>
    ensures { option_map (λ t. t.now) result
        ≡ fields.site_name (fields.text_at (plain tree.now) key.now) }
{
    let name = text_at(tree, key)?;
    if is_site_name(name) { Some(name) } else { None }
}

/// The site of an item.
fn site_of(tree: &Tree) -> &str
    ensures { result.now ≡ fields.site_of (plain tree.now) }
{
    match site_name(tree, "extractor_key") {
        Some(name) => name,
        None => match site_name(tree, "extractor") {
            Some(name) => name,
            None => "generic",
        },
    }
}

/// The site in ASCII lower case, a space and the id, without spaces at the end.
pub(crate) fn line_of(alloc: Global, tree: &Tree, id: &str) -> Result<Text, OutOfMemory>
    ensures { IfOk result (λ line. line ≡ fields.line_of (plain tree.now) id.now) }
{
    let mut line = String::from_str(alloc, site_of(tree))?;
    line.make_ascii_lowercase();
    line.push(' ')?;
    line.push_str(id)?;
    Text::new(alloc, without_last_spaces(line.as_str()))
}
