//! What a worker does to a slot.
ghost use Rattle.std.specs.Prelude.{◌≡◌, ℕ};

use crate::slot::Slot;
use claim_crew::Task;
use folder_base::Folder;
use link_http::{Dialer, Piece};
use piece_turn::fetch_piece;
use std::alloc::Global;

/// What all workers share.
#[derive(Drop)]
pub(crate) struct Site<'a> {
    pub(crate) alloc: Global,
    pub(crate) pieces: &'a [Piece],
    pub(crate) retries: u32,
}

impl<'a, F: Folder, D: Dialer> Task<Slot<F>, D> for Site<'a> {
    ghost use Rattle.frag_crew.specs.Slots.{MayFetch, FetchesPiece, slot_failed};

    ghost may = { λ site. MayFetch site.pieces.now site.retries };

    ghost does = { λ site. FetchesPiece D.wire site.pieces.now site.retries };

    ghost fails = { slot_failed };

    fn work(&self, at: usize, item: &mut Slot<F>, hand: &mut D) -> bool {
        let piece = &self.pieces[at];
        item.end = fetch_piece(self.alloc, &mut item.lane, hand, piece, self.retries);
        item.end.has_failed()
    }
}
