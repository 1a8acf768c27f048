ghost use Rattle.std.specs.Prelude.{◌<◌};

use std::alloc::Global;
use text_base::{OutOfMemory, Text};

/// Where a dial of a dialer in memory went.
#[derive(Debug, Drop)]
pub struct MemDial {
    pub host: Text,
    pub port: u16,
    ghost fits: { port < 65536 },
}

impl MemDial {
    ghost use Rattle.std.specs.Prelude.{◌≡◌, IfOk};
    ghost use Rattle.link_http.specs.Memory.{place_of};

    pub fn new(alloc: Global, host: &str, port: u16) -> Result<MemDial, OutOfMemory>
        ensures { IfOk result (λ dial. place_of dial ≡ record { host = host.now; port = port }) }
    {
        Ok(MemDial {
            host: Text::new(alloc, host)?,
            port,
        })
    }

    pub fn copy(&self, alloc: Global) -> Result<MemDial, OutOfMemory>
        ensures { IfOk result (λ dial. place_of dial ≡ place_of self.now) }
    {
        MemDial::new(alloc, self.host.as_str(), self.port)
    }
}
