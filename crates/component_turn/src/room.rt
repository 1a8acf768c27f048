//! The room that a crew needs, made before any part of the folder is out.
ghost use Rattle.std.specs.Prelude.{◌≡◌, ◌≤◌, [], length, IfOk, vec_capacity};
ghost use Rattle.component_turn.specs.Plan.{stems_from};

use crate::stems::stems;
use folder_base::Folder;
use keep_store::Lane;
use std::alloc::Global;
use text_base::{OutOfMemory, Text};

/// The stems of the parts, and room for the lanes over them, for the parts that get none, and for all
/// parts on their way back.
#[derive(Drop)]
pub(crate) struct Room<F: Folder + Drop> {
    pub(crate) stems: Vec<Text>,
    pub(crate) lanes: Vec<Lane<F>>,
    pub(crate) left: Vec<F>,
    pub(crate) back: Vec<F>,
    pub ghost none: { (lanes.items ≡ []) × (left.items ≡ []) × (back.items ≡ []) },
    pub ghost lane_room: { length stems.items ≤ vec_capacity lanes },
    pub ghost left_room: { length stems.items ≤ vec_capacity left },
    pub ghost back_room: { length stems.items ≤ vec_capacity back },
}

/// Room for so many pieces.
pub(crate) fn make_room<F: Folder + Drop>(
    alloc: Global,
    component: &str,
    count: usize,
) -> Result<Room<F>, OutOfMemory>
    ensures { IfOk result (λ room. room.stems.items ≡ stems_from component.now 0 count) }
{
    Ok(Room {
        stems: stems(alloc, component, count)?,
        lanes: Vec::with_capacity(alloc, count)?,
        left: Vec::with_capacity(alloc, count)?,
        back: Vec::with_capacity(alloc, count)?,
    })
}
