ghost use Rattle.std.specs.Prelude.{◌≡◌, ◌≤◌, [], IfOk, OnOk, length};
ghost use Rattle.http_reply.specs.Heads.{heads_room, fields_room};

use crate::window::Window;
use httparse::spans::{EMPTY_HEADER_SPAN, HeaderSpan};
use std::alloc::Global;
use text_base::OutOfMemory;

/// One field more than a head may have.
const FIELDS: usize = 129;

/// More fields than the heads of a reply have room for.
const WHOLE: usize = 32_768;

/// Room for a reply.
#[derive(Drop)]
pub struct Room {
    pub window: Window,
    pub headers: Vec<HeaderSpan>,
}

impl Room {
    pub fn new(alloc: Global) -> Result<Room, OutOfMemory>
        ensures { IfOk result (λ room. room.window ≡ record { bytes = []; room = heads_room }) }
    {
        let window = Window::new(alloc)?;
        let headers = vec![in alloc; EMPTY_HEADER_SPAN; FIELDS]?;
        Ok(Room { window, headers })
    }
}

/// Makes room for all fields that the heads of a reply have room for.
pub fn widen(headers: &mut Vec<HeaderSpan>) -> Result<(), OutOfMemory>
    ensures { OnOk result (fields_room ≤ length headers.new.items) }
{
    'fields: while headers.len() < WHOLE {
        headers.push(EMPTY_HEADER_SPAN)?;
    }
    Ok(())
}
