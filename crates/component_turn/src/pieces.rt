//! The pieces of a component are fetched: the folder's parts are handed out, and come back.
ghost use Rattle.std.specs.Prelude.{◌≡◌, ◌≤◌, ◌<◌, ◌^◌, IsTrue, IfOk, IfErr, OnErr, map, take, drop, length, vec_len};
ghost use Rattle.folder_base.specs.Story.{IsWhole};
ghost use Rattle.component_turn.specs.Crew.{Endures, CrewKeeps, Fetches, FetchesNone, Crews, CrewsNone};
ghost use Rattle.component_turn.specs.Lanes.{AllFolders, AllRetained};

use crate::component::Component;
use crate::lanes::{close_all, open_all, put_all};
use crate::room::{Room, make_room};
use folder_base::{Folder, FolderCall, StoreFault};
use folder_steps::store_fault;
use frag_crew::{CrewEnd, CrewRefused, PieceEnd, fetch_all};
use link_http::{Dialer, Piece};
use std::alloc::Global;
use std::thread::Threads;

/// The parts, each at its own place, and how the pieces ended, or why none was begun.
#[derive(Drop)]
pub(crate) struct Parts<F: Folder + Drop> {
    pub(crate) back: Vec<F>,
    pub(crate) ends: Result<Vec<PieceEnd>, StoreFault>,
}

/// Fetches the pieces over the parts, with the first `workers` dialers. All parts come back, whatever
/// happens.
fn fetch_parts<R: Threads + Sync, F: Folder + Drop + Send, D: Dialer + Send>(
    rt: &R,
    alloc: Global,
    parts: Vec<F>,
    room: Room<F>,
    dialers: &mut Vec<D>,
    pieces: &Vec<Piece>,
    workers: usize,
    retries: u32,
) -> Parts<F>
    requires many { (length parts.items ≡ length room.stems.items) × (vec_len pieces.now ≡ length parts.items) }
    requires folders { AllFolders room.stems.items (map F.world parts.items) }
    requires few { vec_len pieces.now < 2 ^ 63 }
    requires workers { (0 < workers) × (workers ≤ 32) × (workers ≤ vec_len dialers.old) }
    requires retries { retries ≤ 1000 }
    ensures back { AllRetained room.stems.items (map F.world parts.items) (map F.world result.back.items) }
    ensures fetched { IfOk result.ends (λ ends. Fetches D.wire room.stems.items pieces.now.items retries
        (map F.world parts.items) (map F.world result.back.items) ends.items
        (take workers dialers.old.items) (take workers dialers.new.items)) }
    ensures refused { IfErr result.ends (FetchesNone room.stems.items
        (map F.world parts.items) (map F.world result.back.items)) }
    ensures none_dialed { OnErr result.ends (dialers.new.items ≡ dialers.old.items) }
    ensures dialers { vec_len dialers.new ≡ vec_len dialers.old }
    ensures idle { drop workers dialers.new.items ≡ drop workers dialers.old.items }
{
    let Room {
        stems,
        mut lanes,
        mut left,
        mut back,
    } = room;
    if let Some(fault) = open_all(alloc, parts, &stems, &mut lanes, &mut left) {
        close_all(lanes, &mut back);
        put_all(left, &mut back);
        return Parts {
            back,
            ends: Err(fault),
        };
    }
    match fetch_all(rt, alloc, lanes, pieces, dialers, workers, retries) {
        Ok(CrewEnd { lanes, ends }) => {
            close_all(lanes, &mut back);
            Parts {
                back,
                ends: Ok(ends),
            }
        }
        Err(CrewRefused { lanes }) => {
            close_all(lanes, &mut back);
            Parts {
                back,
                ends: Err(StoreFault::OutOfMemory),
            }
        }
    }
}

/// Fetches the component's pieces, with the first `workers` dialers, and answers how each ended. Where one
/// of the folder's parts gets no lane nothing is asked. In all cases the folder is whole again.
pub(crate) fn fetch_pieces<R: Threads + Sync, F: Folder + Drop + Send, D: Dialer + Send>(
    rt: &R,
    alloc: Global,
    folder: &mut F,
    dialers: &mut Vec<D>,
    component: &Component,
    workers: usize,
    retries: u32,
) -> Result<Vec<PieceEnd>, StoreFault>
    requires whole { IsTrue (F.world folder.old).tells → IsWhole (F.world folder.old) }
    requires workers { (0 < workers) × (workers ≤ 32) × (workers ≤ vec_len dialers.old) }
    requires retries { retries ≤ 1000 }
    ensures endures { Endures (F.world folder.old) (F.world folder.new) }
    ensures keeps { IsTrue (F.world folder.new).tells
        → CrewKeeps component.now (F.world folder.old) (F.world folder.new) }
    ensures fetched { IfOk result (λ ends. Crews D.wire component.now retries
        (F.world folder.old) (F.world folder.new) ends.items
        (take workers dialers.old.items) (take workers dialers.new.items)) }
    ensures refused { IfErr result (CrewsNone component.now (F.world folder.old) (F.world folder.new)) }
    ensures none_dialed { OnErr result (dialers.new.items ≡ dialers.old.items) }
    ensures dialers { vec_len dialers.new ≡ vec_len dialers.old }
    ensures idle { drop workers dialers.new.items ≡ drop workers dialers.old.items }
{
    let Ok(room) = make_room(alloc, component.name.as_str(), component.pieces.len()) else {
        return Err(StoreFault::OutOfMemory);
    };
    let parts = match folder.fan(alloc, &room.stems) {
        Ok(parts) => parts,
        Err(fault) => return Err(store_fault(FolderCall::Fan, fault)),
    };
    let Parts { back, ends } = fetch_parts(
        rt,
        alloc,
        parts,
        room,
        dialers,
        &component.pieces,
        workers,
        retries,
    );
    folder.gather(back);
    ends
}
