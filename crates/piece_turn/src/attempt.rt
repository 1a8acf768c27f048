//! One try of a piece.
ghost use Rattle.std.specs.Prelude.{◌≡◌, ℕ, false, Result};
ghost use Rattle.folder_base.specs.declared.store_fault.StoreFault.{StoreFault};
ghost use Rattle.keep_store.specs.Seen.{lane_seen};
ghost use Rattle.link_http.specs.Taking.{of_store};
ghost use Rattle.piece_turn.specs.Step.{EndsTry, Tried};
ghost use Rattle.piece_turn.specs.Try.{Try, answer_of, answer, is_retried, unless_folder};

use folder_base::{Folder, StoreFault};
use keep_store::Lane;
use link_http::{Dialer, Fetched, Piece, PieceFault, fetch_from};
use std::alloc::Global;

/// Whether another try may come to something else: the URL, the folder and the memory are not asked again.
pub(crate) fn is_retried(fault: PieceFault) -> bool
    ensures { result ≡ is_retried fault }
{
    match fault {
        PieceFault::Url | PieceFault::Scheme => false,
        PieceFault::Folder { .. } | PieceFault::OutOfMemory => false,
        _ => true,
    }
}

/// What the lane refused, as the fault of a try.
fn lane_fault(fault: StoreFault) -> PieceFault
    ensures { result ≡ of_store fault }
{
    match fault {
        StoreFault::Folder { call } => PieceFault::Folder { call },
        StoreFault::OutOfMemory => PieceFault::OutOfMemory,
    }
}

/// The cause of a try whose lane promised what came: a fault of the folder that the lane does not
/// answer itself counts as want of memory.
fn unless_folder(cause: PieceFault) -> PieceFault
    ensures { result ≡ unless_folder cause }
{
    match cause {
        PieceFault::Folder { .. } => PieceFault::OutOfMemory,
        _ => cause,
    }
}

/// Ends a try: finishes the piece where all of it came, and else promises what came. For a bad URL
/// nothing was asked, so there is nothing to promise.
fn end_try<F: Folder>(
    lane: &mut Lane<F>,
    gave: Result<Fetched, PieceFault>,
) -> Result<(), PieceFault>
    requires { (lane_seen lane.old).complete ≡ false }
    ensures { (kept : Result (Unit {0}) StoreFault) × (result ≡ answer_of gave kept)
        × EndsTry gave kept (lane_seen lane.old) (lane_seen lane.new) }
{
    match gave {
        Ok(_) => match lane.finish() {
            Ok(()) => Ok(()),
            Err(fault) => Err(lane_fault(fault)),
        },
        Err(PieceFault::Url) => Err(PieceFault::Url),
        Err(PieceFault::Scheme) => Err(PieceFault::Scheme),
        Err(cause) => match lane.checkpoint() {
            Ok(()) => Err(unless_folder(cause)),
            Err(fault) => Err(lane_fault(fault)),
        },
    }
}

/// One try, from what the lane promises on.
pub(crate) fn try_once<F: Folder, D: Dialer>(
    alloc: Global,
    lane: &mut Lane<F>,
    dialer: &mut D,
    piece: &Piece,
    known: &mut Option<u64>,
) -> Result<(), PieceFault>
    requires part { (lane_seen lane.old).complete ≡ false }
    requires promised { (lane_seen lane.old).promised ≡ (lane_seen lane.old).size }
    ensures { (t : Try) × (result ≡ answer t)
        × Tried piece.now t (record { lane = lane_seen lane.old; wire = D.wire dialer.old; known = known.old })
        (record { lane = lane_seen lane.new; wire = D.wire dialer.new; known = known.new }) }
{
    let from = lane.promised();
    let gave = fetch_from(alloc, dialer, piece, from, known, lane);
    end_try(lane, gave)
}
