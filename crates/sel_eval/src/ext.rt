ghost use Rattle.std.specs.Prelude.{◌≡◌, bytes_eq};
ghost use Rattle.std.specs.List.{list_any};
ghost use Rattle.sel_eval.specs.Ext.{takes, takes_all, fitting, tried, ext_of_choice};

use crate::placed::Placed;
use crate::streams::Streams;

/// Whether a text is one of several.
pub(crate) fn is_among(text: &str, texts: &[&str]) -> bool
    ensures { result ≡ list_any (λ t. bytes_eq text.now t.now) texts.entry.now }
{
    texts.iter().any(|other| text == *other)
}

/// Whether a container takes parts of an extension.
fn takes(container: &str, ext: &str) -> bool
    ensures { result ≡ takes container.now ext.now }
{
    if is_among(container, &["mkv"]) {
        true
    } else if is_among(container, &["mp4", "mov"]) {
        is_among(ext, &["mp4", "m4a", "m4v", "mov"])
    } else if is_among(container, &["webm"]) {
        is_among(ext, &["webm", "weba"])
    } else {
        is_among(container, &["avi", "flv"]) && container == ext
    }
}

/// Whether a container takes each part.
fn takes_all(container: &str, parts: &[Placed<'_>]) -> bool
    ensures { result ≡ takes_all parts.now container.now }
{
    parts
        .iter()
        .all(|part| takes(container, part.format().ext()))
}

/// The container that parts are merged to: the first that takes them all, else the last.
fn container_of<'a>(streams: &'a Streams, parts: &[Placed<'_>]) -> &'a str
    ensures { result.now ≡ fitting parts.now (tried streams.entry.now.merge_ext.items) }
{
    let listed = &streams.merge_ext;
    match listed.last() {
        Some(last) => listed
            .iter()
            .find(|container| takes_all(container.as_str(), parts))
            .unwrap_or(last)
            .as_str(),
        None if takes_all("mp4", parts) => "mp4",
        None if takes_all("webm", parts) => "webm",
        None => "mkv",
    }
}

/// The extension of a choice: that of its only part, else of the container that its parts are merged to.
pub(crate) fn ext_of<'a>(streams: &'a Streams, parts: &'a [Placed<'a>]) -> &'a str
    ensures { result.now ≡ ext_of_choice streams.entry.now parts.entry.now }
{
    match parts {
        [part] => part.format().ext(),
        _ => container_of(streams, parts),
    }
}
