//! A piece's turn.
ghost use Rattle.std.specs.Prelude.{◌≤◌};
ghost use Rattle.keep_store.specs.Seen.{lane_seen};
ghost use Rattle.piece_turn.specs.Lane.{IsAsOpened};
ghost use Rattle.piece_turn.specs.Turn.{TakesTurn};

use crate::attempt::{is_retried, try_once};
use crate::piece_end::PieceEnd;
use folder_base::Folder;
use keep_store::Lane;
use link_http::{Dialer, Piece};
use std::alloc::Global;

/// Fetches a lane's piece, by one try and as many retries at most. A complete lane is done with no
/// try. Each try asks from what the lane promises by then.
pub fn fetch_piece<F: Folder, D: Dialer>(
    alloc: Global,
    lane: &mut Lane<F>,
    dialer: &mut D,
    piece: &Piece,
    retries: u32,
) -> PieceEnd
    requires opened { IsAsOpened (lane_seen lane.old) }
    requires few { retries ≤ 1000 }
    ensures { TakesTurn piece.now retries (lane_seen lane.old) (lane_seen lane.new) result
        (D.wire dialer.old) (D.wire dialer.new) }
{
    if lane.complete() {
        return PieceEnd::Done { tries: 0 };
    }
    let mut known = None;
    let mut tries = 0;
    loop {
        let answer = try_once(alloc, lane, dialer, piece, &mut known);
        tries += 1;
        match answer {
            Ok(()) => return PieceEnd::Done { tries },
            Err(cause) => {
                if tries > retries || !is_retried(cause) {
                    return PieceEnd::Failed { tries, cause };
                }
            }
        }
    }
}
