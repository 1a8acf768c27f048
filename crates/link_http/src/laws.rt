//! Laws of one try over HTTP.
ghost use Rattle.std.specs.Prelude.{◌≡◌, ◌≢◌, ◌≤◌, ◌+◌, ℕ, List, length, Some, Ok, Err, IsTrue};
ghost use Rattle.http_reply.specs.Chunked.{limit};
ghost use Rattle.link_http.specs.Memory.{world_of};
ghost use Rattle.folder_base.specs.Took.{RefusesOnlyMemory};
ghost use Rattle.link_http.specs.Turns.{plans_no_fault, plans_whole_replies};

use crate::dialer_mem::DialerMem;
use crate::fetch::fetch_from;
use crate::fetched::Fetched;
use crate::page::Page;
use crate::piece::Piece;
use crate::turn::Turn;
use folder_base::Taker;
use http_reply::PieceFault;
use std::alloc::Global;

/// Law: over a dialer in memory that plans no fault and whole replies, a page of its world is
/// fetched from any place in it, if the taker refuses for want of memory alone and memory is there.
pub fn pages_are_fetched<B: Taker>(
    alloc: Global,
    pages: Vec<Page>,
    script: Vec<Turn>,
    piece: &Piece,
    from: u64,
    taker: &mut B,
) -> Result<Fetched, PieceFault>
    requires { from ≤ limit → limit ≤ B.spare taker.old + from }
    ensures { (bytes : List ℕ) → world_of pages.items piece.now.url ≡ Some bytes
        → length bytes ≤ limit → from ≤ length bytes
        → IsTrue (plans_no_fault script.items) → IsTrue (plans_whole_replies script.items)
        → RefusesOnlyMemory B.took B.may_refuse taker.old → result ≢ Err PieceFault.OutOfMemory
        → result ≡ Ok (record { total = length bytes }) }
{
    let Ok(mut dialer) = DialerMem::new(alloc, pages, script) else {
        return Err(PieceFault::OutOfMemory);
    };
    let mut known = None;
    fetch_from(alloc, &mut dialer, piece, from, &mut known, taker)
}
