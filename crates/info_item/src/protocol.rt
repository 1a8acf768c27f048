//! The protocol that a format's `url` tells.
ghost use Rattle.std.specs.Prelude.{◌≡◌, ◌==◌, IfOk, IfSome, Some, position, slice_get};
ghost use Rattle.info_tree.specs.Plain.{plain};
ghost use Rattle.info_item.specs.Fields as fields;

use crate::keys::text_at;
use info_tree::Tree;
use std::alloc::Global;
use text_base::{OutOfMemory, Text};

/// The place of the first `:`.
fn colon_in(url: &str) -> Option<usize>
    ensures first { result ≡ position (λ b. b == 58) url.now }
    ensures here { IfSome result (λ n. slice_get url.now n ≡ Some 58) }
{
    url.as_bytes().iter().position(|byte| *byte == b':')
}

/// The text before the first `:` in ASCII lower case, none without a `:`.
fn scheme_of(alloc: Global, url: &str) -> Result<Option<Text>, OutOfMemory>
    ensures { IfOk result (λ scheme. scheme ≡ fields.scheme_of url.now) }
{
    let Some(end) = colon_in(url) else {
        return Ok(None);
    };
    let mut scheme = String::from_str(alloc, &url[..end])?;
    scheme.make_ascii_lowercase();
    Ok(Some(Text::from(scheme)))
}

/// What the `url` tells, where the key `protocol` is absent.
pub(crate) fn derived_protocol(alloc: Global, tree: &Tree) -> Result<Option<Text>, OutOfMemory>
    ensures { IfOk result (λ protocol. protocol ≡ fields.derived_protocol (plain tree.now)) }
{
    if tree.get("protocol").is_some() {
        return Ok(None);
    }
    match text_at(tree, "url") {
        Some(url) => scheme_of(alloc, url),
        None => Ok(None),
    }
}
