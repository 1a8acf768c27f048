ghost use Rattle.std.specs.Prelude.{◌≡◌, ◌+◌, ◌≤◌, IfOk, None, false, length};
ghost use Rattle.std.specs.String.{string_capacity};

use crate::lane_names::name_room;
use folder_base::StoreFault;
use std::alloc::Global;
use text_base::{OutOfMemory, Text};

/// What a lane knows of its piece beside the folder.
#[derive(Drop)]
pub(crate) struct LaneState {
    pub(crate) number: usize,
    pub(crate) stem: Text,
    /// The name of the piece's file.
    pub(crate) current: String,
    /// Room for the name that comes next.
    pub(crate) next: String,
    pub(crate) size: u64,
    pub(crate) promised: u64,
    pub(crate) complete: bool,
    pub(crate) fault: Option<StoreFault>,
}

/// The state of a lane of this piece, before it is found.
pub(crate) fn new_state(alloc: Global, number: usize, stem: &str) -> Result<LaneState, OutOfMemory>
    ensures piece { IfOk result (λ state. state.stem ≡ stem.now) }
    ensures number { IfOk result (λ state. state.number ≡ number) }
    ensures room { IfOk result (λ state. length stem.now + 22 ≤ string_capacity state.current) }
    ensures next_room { IfOk result (λ state. length stem.now + 22 ≤ string_capacity state.next) }
    ensures part { IfOk result (λ state. state.complete ≡ false) }
    ensures ready { IfOk result (λ state. state.fault ≡ None) }
{
    Ok(LaneState {
        number,
        stem: Text::new(alloc, stem)?,
        current: name_room(alloc, stem)?,
        next: name_room(alloc, stem)?,
        size: 0,
        promised: 0,
        complete: false,
        fault: None,
    })
}
