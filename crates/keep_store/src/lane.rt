ghost use Rattle.keep_store.specs.State.{IsLane};

use crate::holding::{finish_or_hold, promise_or_hold, take_or_hold};
use crate::lane_refused::LaneRefused;
use crate::lane_state::LaneState;
use crate::resuming::open_state;
use folder_base::{Folder, StoreFault};
use std::alloc::Global;

/// A piece that is partly fetched: a file that takes bytes, and whose name promises some of them.
#[derive(Drop)]
pub struct Lane<F: Folder> {
    folder: F,
    state: LaneState,
    ghost kept: { IsLane (F.world folder) state },
}

impl<F: Folder> Lane<F> {
    ghost use Rattle.std.specs.Prelude.{◌≡◌, ◌≤◌, length, false, IsTrue, IfOk, IfErr};
    ghost use Rattle.keep_store.specs.Calls.{Takes, Checkpoints, EndsPiece};
    ghost use Rattle.keep_store.specs.Lane.{IsLaneFolder, spare_of};
    ghost use Rattle.keep_store.specs.Opens.{Opens, NotOpened};
    ghost use Rattle.keep_store.specs.Seen.{lane_seen};

    /// Opens a piece by its number and its stem, which is the folder's own where it is a part: goes on
    /// from what is promised of it, or begins it, and removes its other names.
    pub fn open(
        alloc: Global,
        folder: F,
        number: usize,
        name: &str,
    ) -> Result<Lane<F>, LaneRefused<F>>
        requires { IsTrue (F.world folder).tells → IsLaneFolder name.now (F.world folder) }
        ensures opened { IfOk result
            (λ lane. Opens (F.world folder) number name.now (lane_seen lane)) }
        ensures refused { IfErr result
            (λ refused. NotOpened name.now (F.world folder)
            (F.world refused.folder) refused.fault) }
    {
        let mut folder = folder;
        match open_state(alloc, &mut folder, number, name) {
            Ok(state) => Ok(Lane { folder, state }),
            Err(fault) => Err(LaneRefused { folder, fault }),
        }
    }

    /// How many bytes are promised.
    pub fn promised(&self) -> u64
        ensures value { result ≡ (lane_seen self.now).promised }
        ensures within { result ≤ (lane_seen self.now).size }
    {
        self.state.promised
    }

    /// Whether the piece is complete.
    pub fn complete(&self) -> bool
        ensures { result ≡ (lane_seen self.now).complete }
    {
        self.state.complete
    }

    /// Puts bytes behind the file's end, and promises all at each multiple of 1,048,576. A lane that
    /// was refused answers that fault from then on, here and in its other calls.
    pub fn take(&mut self, bytes: &[u8]) -> Result<(), StoreFault>
        requires { length bytes.now ≤ spare_of (lane_seen self.old) }
        ensures { Takes (lane_seen self.old) bytes.now (lane_seen self.new) result }
    {
        take_or_hold(&mut self.folder, &mut self.state, bytes)
    }

    /// Promises all bytes so far.
    pub fn checkpoint(&mut self) -> Result<(), StoreFault>
        requires { (lane_seen self.old).complete ≡ false }
        ensures { Checkpoints (lane_seen self.old) (lane_seen self.new) result }
    {
        promise_or_hold(&mut self.folder, &mut self.state)
    }

    /// Gives the piece its complete name: it has all its bytes.
    pub fn finish(&mut self) -> Result<(), StoreFault>
        requires { (lane_seen self.old).complete ≡ false }
        ensures { EndsPiece (lane_seen self.old) (lane_seen self.new) result }
    {
        finish_or_hold(&mut self.folder, &mut self.state)
    }

    /// The folder.
    pub fn into_folder(self) -> F
        ensures { F.world result ≡ (lane_seen self).world }
    {
        let Lane { folder, state } = self;
        drop(state);
        folder
    }
}
