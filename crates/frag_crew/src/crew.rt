//! The call: the lanes are claimed one by one, and come back with their ends.
ghost use Rattle.std.specs.Prelude.{◌≡◌, ◌+◌, ◌<◌, ◌≤◌, ◌^◌, take, drop, vec_len, IfOk, IfErr, OnErr};
ghost use Rattle.frag_crew.specs.Crew.{AreReady, Fetched};

use crate::slot::{empty_slots, fill_slots};
use crate::task::Site;
use claim_crew::claim_all;
use folder_base::Folder;
use keep_store::Lane;
use link_http::{Dialer, Piece};
use piece_turn::PieceEnd;
use std::alloc::Global;
use std::thread::Threads;

/// The lanes, each at its own place, and how their pieces ended.
#[derive(Drop)]
pub struct CrewEnd<F: Folder> {
    pub lanes: Vec<Lane<F>>,
    pub ends: Vec<PieceEnd>,
}

/// There was no memory, and nothing was dialed. The lanes are as they were.
#[derive(Drop)]
pub struct CrewRefused<F: Folder> {
    pub lanes: Vec<Lane<F>>,
}

/// Fetches the piece of each lane, with the first `workers` dialers, each in a thread of its own where one
/// can be made (one less than `workers` are started; the caller's thread is a worker too).
///
/// The workers claim the pieces in their order. Once a piece has failed no worker that knows of it begins
/// another; those that are begun go on. A complete lane is done, begun or not.
pub fn fetch_all<R: Threads + Sync, F: Folder + Send, D: Dialer + Send>(
    rt: &R,
    alloc: Global,
    lanes: Vec<Lane<F>>,
    pieces: &Vec<Piece>,
    dialers: &mut Vec<D>,
    workers: usize,
    retries: u32,
) -> Result<CrewEnd<F>, CrewRefused<F>>
    requires pieces { (vec_len pieces.now ≡ vec_len lanes) × (vec_len lanes + workers < 2 ^ 64) }
    requires ready { AreReady lanes.items }
    requires workers { (0 < workers) × (workers ≤ 32) × (workers ≤ vec_len dialers.old) }
    requires retries { retries ≤ 1000 }
    ensures fetched { IfOk result (λ end. Fetched D.wire pieces.now.items retries lanes.items end.lanes.items end.ends.items
        (take workers dialers.old.items) (take workers dialers.new.items)) }
    ensures refused { IfErr result (λ refused. refused.lanes.items ≡ lanes.items) }
    ensures none_dialed { OnErr result (dialers.new.items ≡ dialers.old.items) }
    ensures dialers { vec_len dialers.new ≡ vec_len dialers.old }
    ensures idle { drop workers dialers.new.items ≡ drop workers dialers.old.items }
{
    let mut lanes = lanes;
    let count = lanes.len();
    let Ok(mut slots) = Vec::with_capacity(alloc, count) else {
        return Err(CrewRefused { lanes });
    };
    let Ok(mut ends) = Vec::with_capacity(alloc, count) else {
        slots.destroy_empty();
        return Err(CrewRefused { lanes });
    };
    fill_slots(&mut lanes, &mut slots);
    let site = Site {
        alloc,
        pieces: pieces.as_slice(),
        retries,
    };
    match claim_all(rt, alloc, &site, slots, dialers.as_mut_slice(), workers) {
        Ok(back) => {
            empty_slots(back, &mut lanes, &mut ends);
            Ok(CrewEnd { lanes, ends })
        }
        Err(back) => {
            empty_slots(back, &mut lanes, &mut ends);
            Err(CrewRefused { lanes })
        }
    }
}
