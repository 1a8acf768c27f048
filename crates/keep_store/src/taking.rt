//! What a lane does to its piece: bytes are put behind its end, and promised.
ghost use Rattle.std.specs.Prelude.{◌≡◌, ◌+◌, ◌%◌, ◌^◌, ◌<◌, ◌≤◌, [], length, true, false, None, OnOk, OnErr, IfErr};
ghost use Rattle.folder_base.specs.Took.{TookSome};
ghost use Rattle.keep_store.specs.Lane.{Took, Finishes, holding};
ghost use Rattle.keep_store.specs.State.{seen, Holds, IsReady, IsNear, IsSameLane};

use crate::lane_names::{write_promise, write_whole};
use crate::lane_state::LaneState;
use crate::moving::move_synced;
use crate::refusal::store_fault;
use folder_base::{Folder, FolderCall, StoreFault};

/// A promise is made at each multiple of this many bytes.
const MARK: u64 = 1_048_576;

/// Puts bytes behind the file's end.
fn put_front<F: Folder>(
    folder: &mut F,
    state: &mut LaneState,
    front: &[u8],
) -> Result<(), StoreFault>
    requires holds { Holds (F.world folder.old) state.old }
    requires is_ready { IsReady (F.world folder.old) state.old }
    requires without_fault { state.old.fault ≡ None }
    requires part { state.old.complete ≡ false }
    requires room { state.old.size + length front.now < 2 ^ 64 }
    ensures taken { OnOk result
        (Took (seen (F.world folder.old) state.old) front.now (seen (F.world folder.new) state.new)) }
    ensures part_taken { IfErr result
        (λ fault. TookSome Took (seen (F.world folder.old) state.old) front.now
        (holding fault (seen (F.world folder.new) state.new))) }
    ensures holds { Holds (F.world folder.new) state.new }
    ensures is_ready { OnOk result (IsReady (F.world folder.new) state.new) }
    ensures same { state.new ≡ record state.old { size = state.new.size } }
    ensures size { OnOk result (state.new.size ≡ state.old.size + length front.now) }
    ensures stays { OnErr result (state.new.size ≡ state.old.size) }
{
    match folder.append(state.current.as_str(), front) {
        Ok(()) => {
            state.size += front.len() as u64;
            Ok(())
        }
        Err(fault) => Err(store_fault(FolderCall::Append, fault)),
    }
}

/// Promises all bytes so far.
pub(crate) fn promise_all<F: Folder>(
    folder: &mut F,
    state: &mut LaneState,
) -> Result<(), StoreFault>
    requires holds { Holds (F.world folder.old) state.old }
    requires is_ready { IsReady (F.world folder.old) state.old }
    requires without_fault { state.old.fault ≡ None }
    requires part { state.old.complete ≡ false }
    ensures taken { OnOk result
        (Took (seen (F.world folder.old) state.old) [] (seen (F.world folder.new) state.new)) }
    ensures part_taken { IfErr result
        (λ fault. Took (seen (F.world folder.old) state.old) []
        (holding fault (seen (F.world folder.new) state.new))) }
    ensures holds { Holds (F.world folder.new) state.new }
    ensures is_ready { OnOk result (IsReady (F.world folder.new) state.new) }
    ensures same { state.new ≡ record state.old
        { current = state.new.current; next = state.new.next; promised = state.new.promised } }
    ensures promised { OnOk result (state.new.promised ≡ state.old.size) }
    ensures stays { OnErr result (state.new.promised ≡ state.old.promised) }
{
    if state.promised == state.size {
        return Ok(());
    }
    write_promise(&mut state.next, state.stem.as_str(), state.size);
    move_synced(folder, state.current.as_str(), state.next.as_str())?;
    std::mem::swap(&mut state.current, &mut state.next);
    state.promised = state.size;
    Ok(())
}

/// Promises all bytes so far as the piece's only ones, by its complete name.
pub(crate) fn promise_whole<F: Folder>(
    folder: &mut F,
    state: &mut LaneState,
) -> Result<(), StoreFault>
    requires holds { Holds (F.world folder.old) state.old }
    requires is_ready { IsReady (F.world folder.old) state.old }
    requires without_fault { state.old.fault ≡ None }
    requires part { state.old.complete ≡ false }
    ensures taken { OnOk result
        (Finishes (seen (F.world folder.old) state.old) (seen (F.world folder.new) state.new)) }
    ensures part_taken { IfErr result
        (λ fault. Finishes (seen (F.world folder.old) state.old)
        (holding fault (seen (F.world folder.new) state.new))) }
    ensures holds { Holds (F.world folder.new) state.new }
    ensures is_ready { OnOk result (IsReady (F.world folder.new) state.new) }
    ensures same { state.new ≡ record state.old
        { current = state.new.current; next = state.new.next; promised = state.new.promised; complete = state.new.complete } }
    ensures done { OnOk result ((state.new.promised ≡ state.old.size) × (state.new.complete ≡ true)) }
    ensures stays { OnErr result ((state.new.promised ≡ state.old.promised) × (state.new.complete ≡ false)) }
{
    write_whole(&mut state.next, state.stem.as_str());
    move_synced(folder, state.current.as_str(), state.next.as_str())?;
    std::mem::swap(&mut state.current, &mut state.next);
    state.promised = state.size;
    state.complete = true;
    Ok(())
}

/// Puts bytes behind the file's end, none of them behind the next mark, and promises all there.
fn put_to_mark<F: Folder>(
    folder: &mut F,
    state: &mut LaneState,
    front: &[u8],
) -> Result<(), StoreFault>
    requires holds { Holds (F.world folder.old) state.old }
    requires is_ready { IsReady (F.world folder.old) state.old }
    requires without_fault { state.old.fault ≡ None }
    requires part { state.old.complete ≡ false }
    requires room { state.old.size + length front.now < 2 ^ 64 }
    requires near { IsNear state.old.size state.old.promised }
    requires to_mark { state.old.size % 1048576 + length front.now ≤ 1048576 }
    requires some { 0 < length front.now }
    ensures taken { OnOk result
        (Took (seen (F.world folder.old) state.old) front.now (seen (F.world folder.new) state.new)) }
    ensures part_taken { IfErr result
        (λ fault. TookSome Took (seen (F.world folder.old) state.old) front.now
        (holding fault (seen (F.world folder.new) state.new))) }
    ensures holds { Holds (F.world folder.new) state.new }
    ensures is_ready { OnOk result (IsReady (F.world folder.new) state.new) }
    ensures same { IsSameLane state.old state.new }
    ensures size { OnOk result (state.new.size ≡ state.old.size + length front.now) }
    ensures part_size { OnErr result (state.new.size ≤ state.old.size + length front.now) }
    ensures near { OnOk result (IsNear state.new.size state.new.promised) }
{
    put_front(folder, state, front)?;
    if state.size % MARK == 0 {
        return promise_all(folder, state);
    }
    Ok(())
}

/// Takes bytes, and promises all so far at each mark.
pub(crate) fn take_all<F: Folder>(
    folder: &mut F,
    state: &mut LaneState,
    bytes: &[u8],
) -> Result<(), StoreFault>
    requires holds { Holds (F.world folder.old) state.old }
    requires is_ready { IsReady (F.world folder.old) state.old }
    requires without_fault { state.old.fault ≡ None }
    requires near { IsNear state.old.size state.old.promised }
    requires room { state.old.complete ≡ false → state.old.size + length bytes.now < 2 ^ 64 }
    requires none { state.old.complete ≡ true → bytes.now ≡ [] }
    ensures taken { OnOk result
        (Took (seen (F.world folder.old) state.old) bytes.now (seen (F.world folder.new) state.new)) }
    ensures part_taken { IfErr result
        (λ fault. TookSome Took (seen (F.world folder.old) state.old) bytes.now
        (holding fault (seen (F.world folder.new) state.new))) }
    ensures holds { Holds (F.world folder.new) state.new }
    ensures is_ready { OnOk result (IsReady (F.world folder.new) state.new) }
    ensures same { IsSameLane state.old state.new }
    ensures size { OnOk result (state.new.size ≡ state.old.size + length bytes.now) }
    ensures part_size { OnErr result (state.new.size ≤ state.old.size + length bytes.now) }
    ensures near { OnOk result (IsNear state.new.size state.new.promised) }
{
    let mut rest = bytes;
    while !rest.is_empty() {
        let room = (MARK - state.size % MARK) as usize;
        let (front, back) = rest.split_at(rest.len().min(room));
        put_to_mark(folder, state, front)?;
        rest = back;
    }
    Ok(())
}
