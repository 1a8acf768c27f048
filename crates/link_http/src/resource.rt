ghost use Rattle.std.specs.Prelude.{◌≡◌, true};
ghost use Rattle.std.specs.List.{list_all};
ghost use Rattle.link_http.specs.Asked.{is_line};
ghost use Rattle.link_http.specs.Sending.{is_clean};

use crate::address::{place_of, read_url};
use crate::mem_dial::MemDial;
use crate::page::Page;
use crate::request::put_target;
use http_reply::PieceFault;
use std::alloc::Global;
use text_base::OutOfMemory;

/// A page of a dialer in memory, by what a request for it says.
#[derive(Drop)]
pub struct Resource {
    pub dial: MemDial,
    /// The first line of a request for it.
    pub line: Vec<u8>,
    pub bytes: Vec<u8>,
    ghost host: { list_all is_clean dial.host ≡ true },
    ghost one_line: { is_line line.items ≡ true },
}

impl Resource {
    ghost use Rattle.std.specs.Prelude.{◌&&◌, ◌==◌, IfOk, nat_eq, bytes_eq};
    ghost use Rattle.std.specs.List.{starts_with};
    ghost use Rattle.link_http.specs.Memory.{place_of, asks_for, IsPlaced};
    ghost use Rattle.link_http.specs.Request.{address};

    /// The resource of a page, if its URL leads anywhere.
    pub fn of(alloc: Global, page: Page) -> Result<Option<Resource>, OutOfMemory>
        ensures { IfOk result (λ found. IsPlaced (address page.url) page.bytes.items found) }
    {
        let Page { url, bytes } = page;
        let url = match read_url(alloc, url.as_str()) {
            Ok(url) => url,
            Err(PieceFault::OutOfMemory) => return Err(OutOfMemory),
            Err(_) => return Ok(None),
        };
        let Ok((host, port)) = place_of(&url) else {
            return Ok(None);
        };
        let dial = MemDial::new(alloc, host, port)?;
        let mut line = Vec::new(alloc);
        put_target(&mut line, &url)?;
        Ok(Some(Resource { dial, line, bytes }))
    }

    /// Whether a request at this place asks for it.
    pub fn is_asked(&self, dial: &MemDial, request: &[u8]) -> bool
        ensures { result ≡ asks_for (place_of dial.now) request.now self.now }
    {
        self.dial.host.as_str() == dial.host.as_str()
            && self.dial.port == dial.port
            && request.starts_with(&self.line)
    }
}
