//! URLs of pieces, as they are kept.
ghost use Rattle.std.specs.Prelude.{◌≡◌, IfOk, IfSome, Some, None, is_some, option_and_then};
ghost use Rattle.std.specs.Result.{result_ok};
ghost use Rattle.info_tree.specs.Plain.{plain};
ghost use Rattle.url.specs.Parts.{Parts, IsValid};
ghost use Rattle.url.specs.Parser.{Parsed, Gives};
ghost use Rattle.job_pieces.specs.Pieces as spec;
ghost use Rattle.job_pieces.specs.Kept.{IsKept};

use crate::parts::text_at;
use info_tree::Tree;
use std::alloc::Global;
use text_base::{OutOfMemory, Text};
use url::{ParseError, Position, Url};

/// The most bytes that a text of a URL may have.
const LONGEST: usize = 268_435_456;

/// The URL that was read, where the text is one.
fn found(parsed: Result<Url, ParseError>) -> Result<Option<Url>, OutOfMemory>
    ensures { (expected : Parsed Parts) → Gives parsed expected → IfOk result (λ url. url ≡ result_ok expected) }
{
    match parsed {
        Ok(url) => Ok(Some(url)),
        Err(ParseError::OutOfMemory) => Err(OutOfMemory),
        Err(ParseError::Overflow) => Err(OutOfMemory),
        Err(_) => Ok(None),
    }
}

/// Reads a URL that stands by itself.
#[tactic(auto, unfolding(crate::specs::Pieces::parsed))]
fn read_url(alloc: Global, text: &str) -> Result<Option<Url>, OutOfMemory>
    ensures { IfOk result (λ url. url ≡ spec.parsed None text.now) }
{
    if text.len() > LONGEST {
        return Ok(None);
    }
    found(Url::parse(alloc, text))
}

/// Reads a URL from a base.
#[tactic(auto, unfolding(crate::specs::Pieces::parsed))]
fn read_from(base: &Url, text: &str) -> Result<Option<Url>, OutOfMemory>
    ensures { IfOk result (λ url. url ≡ spec.parsed (Some base.now) text.now) }
{
    if text.len() > LONGEST {
        return Ok(None);
    }
    found(base.join(text))
}

/// The text of a URL without its fragment.
fn printed_url(alloc: Global, url: &Url) -> Result<Text, OutOfMemory>
    ensures text { IfOk result (λ t. t ≡ spec.printed_url url.now) }
    ensures valid { IsValid url.now }
{
    let text = url.slice(Position::BeforeScheme, Position::AfterQuery);
    Text::new(alloc, text)
}

/// The URL that a text is kept as.
pub(crate) fn kept_url(alloc: Global, text: &str) -> Result<Text, OutOfMemory>
    ensures text { IfOk result (λ t. t ≡ spec.kept_url text.now) }
    ensures kept { IfOk result IsKept }
{
    match read_url(alloc, text)? {
        Some(url) => printed_url(alloc, &url),
        None => Text::new(alloc, text),
    }
}

/// The base of a format's fragments.
pub(crate) fn base_url(alloc: Global, format: &Tree) -> Result<Option<Url>, OutOfMemory>
    ensures { IfOk result (λ url. url ≡ spec.base_url (plain format.now)) }
{
    match text_at(format, "fragment_base_url") {
        Some(text) => read_url(alloc, text),
        None => Ok(None),
    }
}

/// Where a path leads from a base.
fn url_of_path(base: &Option<Url>, path: Option<&str>) -> Result<Option<Url>, OutOfMemory>
    ensures { IfOk result (λ url. url ≡ option_and_then (λ from. option_and_then (λ p. spec.parsed (Some from) p.now) path.entry) base.now) }
{
    let Some(base) = base else {
        return Ok(None);
    };
    let Some(path) = path else {
        return Ok(None);
    };
    read_from(base, path)
}

/// The URL of a fragment, as it is kept.
pub(crate) fn fragment_url(
    alloc: Global,
    base: &Option<Url>,
    fragment: &Tree,
) -> Result<Option<Text>, OutOfMemory>
    ensures text { IfOk result (λ t. t ≡ spec.fragment_url base.now (plain fragment.now)) }
    ensures kept { IfOk result (λ t. IfSome t IsKept) }
{
    if let Some(text) = text_at(fragment, "url") {
        return Ok(Some(kept_url(alloc, text)?));
    }
    match url_of_path(base, text_at(fragment, "path"))? {
        Some(url) => Ok(Some(printed_url(alloc, &url)?)),
        None => Ok(None),
    }
}

/// Whether a fragment has a URL.
pub(crate) fn has_url(base: &Option<Url>, fragment: &Tree) -> Result<bool, OutOfMemory>
    ensures { IfOk result (λ has. has ≡ is_some (spec.fragment_url base.now (plain fragment.now))) }
{
    if text_at(fragment, "url").is_some() {
        return Ok(true);
    }
    Ok(url_of_path(base, text_at(fragment, "path"))?.is_some())
}
