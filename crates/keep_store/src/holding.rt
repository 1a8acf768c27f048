//! A lane's calls, with the fault that it answers from then on.
ghost use Rattle.std.specs.Prelude.{◌≡◌, ◌≤◌, length, false};
ghost use Rattle.keep_store.specs.Calls.{Takes, Checkpoints, EndsPiece};
ghost use Rattle.keep_store.specs.Lane.{spare_of};
ghost use Rattle.keep_store.specs.State.{seen, IsLane};

use crate::lane_state::LaneState;
use crate::taking::{promise_all, promise_whole, take_all};
use folder_base::{Folder, StoreFault};

/// Takes bytes, or holds the fault.
pub(crate) fn take_or_hold<F: Folder>(
    folder: &mut F,
    state: &mut LaneState,
    bytes: &[u8],
) -> Result<(), StoreFault>
    requires lane { IsLane (F.world folder.old) state.old }
    requires spare { length bytes.now ≤ spare_of (seen (F.world folder.old) state.old) }
    ensures lane { IsLane (F.world folder.new) state.new }
    ensures takes { Takes (seen (F.world folder.old) state.old) bytes.now
        (seen (F.world folder.new) state.new) result }
{
    if let Some(fault) = state.fault {
        return Err(fault);
    }
    match take_all(folder, state, bytes) {
        Ok(()) => Ok(()),
        Err(fault) => {
            state.fault = Some(fault);
            Err(fault)
        }
    }
}

/// Promises all bytes so far, or holds the fault.
pub(crate) fn promise_or_hold<F: Folder>(
    folder: &mut F,
    state: &mut LaneState,
) -> Result<(), StoreFault>
    requires lane { IsLane (F.world folder.old) state.old }
    requires part { state.old.complete ≡ false }
    ensures lane { IsLane (F.world folder.new) state.new }
    ensures checkpoints { Checkpoints (seen (F.world folder.old) state.old)
        (seen (F.world folder.new) state.new) result }
{
    if let Some(fault) = state.fault {
        return Err(fault);
    }
    match promise_all(folder, state) {
        Ok(()) => Ok(()),
        Err(fault) => {
            state.fault = Some(fault);
            Err(fault)
        }
    }
}

/// Gives a piece its complete name, or holds the fault.
pub(crate) fn finish_or_hold<F: Folder>(
    folder: &mut F,
    state: &mut LaneState,
) -> Result<(), StoreFault>
    requires lane { IsLane (F.world folder.old) state.old }
    requires part { state.old.complete ≡ false }
    ensures lane { IsLane (F.world folder.new) state.new }
    ensures ends { EndsPiece (seen (F.world folder.old) state.old)
        (seen (F.world folder.new) state.new) result }
{
    if let Some(fault) = state.fault {
        return Err(fault);
    }
    match promise_whole(folder, state) {
        Ok(()) => Ok(()),
        Err(fault) => {
            state.fault = Some(fault);
            Err(fault)
        }
    }
}
