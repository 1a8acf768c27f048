//! Where the URL of a piece leads.
ghost use Rattle.std.specs.Prelude.{◌≡◌, ◌⊎◌, All, Ok, Err, is_ok, IfOk, IfErr};
ghost use Rattle.url.specs.Parts.{IsValid};
ghost use Rattle.url.specs.Parser.{IsOutOfRoom};
ghost use Rattle.http_reply.specs.Faults.{origin, of_url};
ghost use Rattle.link_http.specs.Request.{address, address_of, to_target};
ghost use Rattle.link_http.specs.Sending.{IsClean};

use http_reply::PieceFault;
use std::alloc::Global;
use text_base::OutOfMemory;
use url::{ParseError, Url};

const LONGEST: usize = 268_435_456;

/// Reads the URL of a piece.
pub fn read_url(alloc: Global, text: &str) -> Result<Url, PieceFault>
    ensures read { IfOk result (λ url. address text.now ≡ address_of (Ok url)) }
    ensures fault { IfErr result (λ fault. (fault ≡ PieceFault.OutOfMemory)
        ⊎ ((fault ≡ PieceFault.Url) × (address text.now ≡ Err PieceFault.Url))) }
{
    if text.len() > LONGEST {
        return Err(PieceFault::Url);
    }
    match Url::parse(alloc, text) {
        Ok(url) => Ok(url),
        Err(error) => Err(refused(error)),
    }
}

/// Why a URL was not read.
fn refused(error: ParseError) -> PieceFault
    ensures { (result ≡ PieceFault.OutOfMemory)
        ⊎ ((result ≡ PieceFault.Url) × (IsOutOfRoom error → ⊥)) }
{
    match error {
        ParseError::OutOfMemory => PieceFault::OutOfMemory,
        ParseError::Overflow => PieceFault::OutOfMemory,
        _ => PieceFault::Url,
    }
}

/// The host and the port of a URL of the scheme `http`.
pub fn place_of(url: &Url) -> Result<(&str, u16), PieceFault>
    ensures place { IfOk result (λ place.
        address_of (Ok url.now) ≡ Ok (to_target place.0.now place.1 url.now)) }
    ensures valid { IfOk result (λ place. IsValid url.now) }
    ensures clean { IfOk result (λ place. All IsClean place.0.now) }
    ensures fault { IfErr result (λ fault. address_of (Ok url.now) ≡ Err fault) }
    ensures origin { IfErr result (λ fault. origin fault ≡ of_url) }
{
    let Some(host) = url.host_str() else {
        return Err(PieceFault::Url);
    };
    if url.scheme() != "http" {
        return Err(PieceFault::Scheme);
    }
    Ok((host, url.port().unwrap_or(80)))
}

/// Whether a URL leads to a host over http, so that a piece can be fetched from it.
pub fn leads_over_http(alloc: Global, url: &str) -> Result<bool, OutOfMemory>
    ensures { IfOk result (λ leads. leads ≡ is_ok (address url.now)) }
{
    match read_url(alloc, url) {
        Ok(url) => Ok(place_of(&url).is_ok()),
        Err(PieceFault::OutOfMemory) => Err(OutOfMemory),
        Err(_) => Ok(false),
    }
}
