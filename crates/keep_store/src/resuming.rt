//! How a lane goes on from what its folder promises of the piece.
ghost use Rattle.std.specs.Prelude.{◌≡◌, ◌⊎◌, ◌+◌, ◌<◌, ◌≤◌, ◌^◌, IsTrue, IfOk, IfErr, OnOk, None, false, length, string_bytes};
ghost use Rattle.std.specs.String.{string_capacity};
ghost use Rattle.folder_base.specs.Names.{Lists};
ghost use Rattle.folder_base.specs.Story.{Next, is_own};
ghost use Rattle.keep_store.specs.Lane.{IsLaneFolder, IsRefusal, SameOthers};
ghost use Rattle.keep_store.specs.Opening.{CanBegin, begun_at, MayBegin, found_name, Finds};
ghost use Rattle.keep_store.specs.Opens.{KeepsPromise, Opens, NotOpened};
ghost use Rattle.keep_store.specs.Promise.{promise_prefix};
ghost use Rattle.keep_store.specs.Publish.{Stays};
ghost use Rattle.keep_store.specs.State.{seen, IsLane};

use crate::lane_names::{promise_prefix, write_promise, write_whole};
use crate::lane_state::{LaneState, new_state};
use crate::opening::{greatest_promise, remove_others};
use crate::refusal::store_fault;
use folder_base::{Folder, FolderCall, StoreFault};
use std::alloc::Global;
use text_base::Text;

/// Cuts the file of the greatest promise to it, or makes an empty one.
fn begin_at<F: Folder>(
    folder: &mut F,
    current: &str,
    promise: Option<u64>,
) -> Result<(), StoreFault>
    requires own { IsTrue (F.world folder.old).tells
        → IsTrue (is_own (F.world folder.old) current.now) }
    requires can { IsTrue (F.world folder.old).tells
        → CanBegin current.now promise (F.world folder.old).story.now.live }
    ensures kept { Stays (F.world folder.old) (F.world folder.new) }
    ensures refused { IfErr result (IsRefusal (F.world folder.old) (F.world folder.new)) }
    ensures done { IsTrue (F.world folder.new).tells
        → OnOk result (Next (begun_at current.now promise)
        (F.world folder.old).story (F.world folder.new).story) }
    ensures told { IsTrue (F.world folder.new).tells
        → MayBegin current.now promise (F.world folder.old).story (F.world folder.new).story }
{
    match promise {
        Some(len) => match folder.cut(current, len) {
            Ok(()) => Ok(()),
            Err(fault) => Err(store_fault(FolderCall::Cut, fault)),
        },
        None => match folder.create(current) {
            Ok(()) => Ok(()),
            Err(fault) => Err(store_fault(FolderCall::Create, fault)),
        },
    }
}

/// Finds the piece's file: complete, or at its greatest promise, or else a new one.
fn find_piece<F: Folder>(
    folder: &mut F,
    state: &mut LaneState,
    prefix: &str,
    names: &[Text],
) -> Result<(), StoreFault>
    requires room { length state.old.stem + 22 ≤ string_capacity state.old.current }
    requires part { state.old.complete ≡ false }
    requires behind { prefix.now ≡ promise_prefix state.old.stem }
    requires folder { IsTrue (F.world folder.old).tells
        → IsLaneFolder state.old.stem (F.world folder.old) }
    requires listed { IsTrue (F.world folder.old).tells
        → Lists prefix.now (F.world folder.old).story.now.live names.now }
    ensures kept { Stays (F.world folder.old) (F.world folder.new) }
    ensures refused { IfErr result (IsRefusal (F.world folder.old) (F.world folder.new)) }
    ensures same { state.new ≡ record state.old
        { current = state.new.current; size = state.new.size; promised = state.new.promised; complete = state.new.complete } }
    ensures room { length state.old.stem + 22 ≤ string_capacity state.new.current }
    ensures named { OnOk result (string_bytes state.new.current
        ≡ found_name state.old.stem state.new.complete state.new.size) }
    ensures sizes { OnOk result
        ((state.new.size < 2 ^ 64) × (state.new.promised ≡ state.new.size)) }
    ensures found { IsTrue (F.world folder.new).tells
        → OnOk result (Finds state.old.stem (string_bytes state.new.current) state.new.complete
        state.new.size (F.world folder.old).story (F.world folder.new).story) }
    ensures moments { IsTrue (F.world folder.new).tells
        → KeepsPromise state.old.stem (F.world folder.old).story (F.world folder.new).story }
    ensures others { IsTrue (F.world folder.new).tells
        → SameOthers state.old.stem (F.world folder.old) (F.world folder.new) }
{
    match folder.size(state.stem.as_str()) {
        Ok(Some(size)) => {
            write_whole(&mut state.current, state.stem.as_str());
            state.size = size;
            state.promised = size;
            state.complete = true;
            Ok(())
        }
        Ok(None) => {
            let promise = greatest_promise(folder, prefix, names)?;
            let len = promise.unwrap_or(0);
            write_promise(&mut state.current, state.stem.as_str(), len);
            state.size = len;
            state.promised = len;
            begin_at(folder, state.current.as_str(), promise)
        }
        Err(_) => Err(StoreFault::Folder {
            call: FolderCall::Size,
        }),
    }
}

/// Finds the piece, complete, or at its greatest promise, or else new, and removes its other names.
pub(crate) fn open_state<F: Folder>(
    alloc: Global,
    folder: &mut F,
    number: usize,
    stem: &str,
) -> Result<LaneState, StoreFault>
    requires { IsTrue (F.world folder.old).tells → IsLaneFolder stem.now (F.world folder.old) }
    ensures opened { IfOk result
        (λ state. Opens (F.world folder.old) number stem.now (seen (F.world folder.new) state)) }
    ensures lane { IfOk result (IsLane (F.world folder.new)) }
    ensures refused { IfErr result (NotOpened stem.now (F.world folder.old) (F.world folder.new)) }
{
    let Ok(prefix) = promise_prefix(alloc, stem) else {
        return Err(StoreFault::OutOfMemory);
    };
    let Ok(mut state) = new_state(alloc, number, stem) else {
        return Err(StoreFault::OutOfMemory);
    };
    let names = match folder.names(alloc, prefix.as_str()) {
        Ok(names) => names,
        Err(fault) => return Err(store_fault(FolderCall::Names, fault)),
    };
    find_piece(folder, &mut state, prefix.as_str(), &names)?;
    remove_others(folder, prefix.as_str(), state.current.as_str(), &names)?;
    Ok(state)
}
