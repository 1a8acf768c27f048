//! One try: a request for a piece from a place on, and what its reply gives.
ghost use Rattle.std.specs.Prelude.{◌≡◌, ◌≢◌, ◌≤◌, ◌+◌, ℕ, List, [], length, None, Some, Ok, Err, IsTrue, IsSome, IfErr, IfSome};
ghost use Rattle.folder_base.specs.Took.{RefusesOnlyMemory};
ghost use Rattle.http_reply.specs.Chunked.{limit};
ghost use Rattle.http_reply.specs.Faults.{origin, of_url};
ghost use Rattle.http_reply.specs.Heads.{heads_room};
ghost use Rattle.link_http.specs.Wire.{Wire, Counts};
ghost use Rattle.link_http.specs.Request.{Address, Place, address};
ghost use Rattle.link_http.specs.Sending.{IsWholeText, fresh};
ghost use Rattle.link_http.specs.Taking.{Keeps, names_call};
ghost use Rattle.link_http.specs.Try.{Talks, DialsAndTalks, Fetches, OfAddress, IsThere, IsPaired};

use crate::address::{place_of, read_url};
use crate::dialer::Dialer;
use crate::fetched::Fetched;
use crate::piece::Piece;
use crate::request::request_text;
use crate::room::Room;
use crate::send::send_all;
use crate::take_reply::take_reply;
use folder_base::Taker;
use http_reply::PieceFault;
use std::alloc::Global;
use text_base::FolderFault;

/// Fetches a piece from a place on: one request over one connection, whose reply goes to the
/// taker as far as the reply vouches for it.
pub fn fetch_from<D: Dialer, B: Taker>(
    alloc: Global,
    dialer: &mut D,
    piece: &Piece,
    from: u64,
    known: &mut Option<u64>,
    taker: &mut B,
) -> Result<Fetched, PieceFault>
    requires { from ≤ limit → limit ≤ B.spare taker.old + from }
    ensures counts { Counts (D.wire dialer.old) (D.wire dialer.new) (names_call result) }
    ensures hung_up { (D.wire dialer.new).line ≡ None }
    ensures address { OfAddress (address piece.now.url) result }
    ensures known { IfSome known.old (λ total. known.new ≡ Some total) }
    ensures kept { Keeps B.took B.may_refuse result taker.old taker.new }
    ensures fetches { IsTrue (D.wire dialer.new).tells
        → Fetches B.took B.may_refuse (address piece.now.url) piece.now.headers.items from
        (D.wire dialer.old) known.old result taker.old (D.wire dialer.new) known.new taker.new }
    ensures paired { IsTrue (D.wire dialer.new).tells
        → IsPaired (D.wire dialer.old) → IsPaired (D.wire dialer.new) }
    ensures complete { IsTrue (D.wire dialer.new).tells → (to : Address) (bytes : List ℕ)
        → IsThere (D.wire dialer.old) piece.now.url to from known.old bytes
        → RefusesOnlyMemory B.took B.may_refuse taker.old → result ≢ Err PieceFault.OutOfMemory
        → result ≡ Ok (record { total = length bytes }) }
{
    let result = try_piece(alloc, dialer, piece, from, known, taker);
    dialer.hang_up();
    result
}

/// The same, but the connection may stand.
fn try_piece<D: Dialer, B: Taker>(
    alloc: Global,
    dialer: &mut D,
    piece: &Piece,
    from: u64,
    known: &mut Option<u64>,
    taker: &mut B,
) -> Result<Fetched, PieceFault>
    requires { from ≤ limit → limit ≤ B.spare taker.old + from }
    ensures counts { Counts (D.wire dialer.old) (D.wire dialer.new) (names_call result) }
    ensures address { OfAddress (address piece.now.url) result }
    ensures known { IfSome known.old (λ total. known.new ≡ Some total) }
    ensures kept { Keeps B.took B.may_refuse result taker.old taker.new }
    ensures fetches { IsTrue (D.wire dialer.new).tells
        → Fetches B.took B.may_refuse (address piece.now.url) piece.now.headers.items from
        (D.wire dialer.old) known.old result taker.old (D.wire dialer.new) known.new taker.new }
{
    let url = match read_url(alloc, piece.url.as_str()) {
        Ok(url) => url,
        Err(fault) => return Err(fault),
    };
    let (host, port) = match place_of(&url) {
        Ok(place) => place,
        Err(fault) => return Err(fault),
    };
    let Ok(text) = request_text(alloc, host, port, &url, &piece.headers, from) else {
        return Err(PieceFault::OutOfMemory);
    };
    let Ok(mut room) = Room::new(alloc) else {
        return Err(PieceFault::OutOfMemory);
    };
    ask(dialer, &mut room, host, port, &text, from, known, taker)
}

/// Opens a connection and asks.
fn ask<D: Dialer, B: Taker>(
    dialer: &mut D,
    room: &mut Room,
    host: &str,
    port: u16,
    text: &[u8],
    from: u64,
    known: &mut Option<u64>,
    taker: &mut B,
) -> Result<Fetched, PieceFault>
    requires window { room.old.window ≡ record { bytes = []; room = heads_room } }
    requires spare { from ≤ limit → limit ≤ B.spare taker.old + from }
    requires whole { IsWholeText text.now }
    ensures counts { Counts (D.wire dialer.old) (D.wire dialer.new) (names_call result) }
    ensures origin { IfErr result (λ fault. origin fault ≢ of_url) }
    ensures known { IfSome known.old (λ total. known.new ≡ Some total) }
    ensures kept { Keeps B.took B.may_refuse result taker.old taker.new }
    ensures talks { let place : Place = record { host = host.now; port = port } in
        IsTrue (D.wire dialer.new).tells → DialsAndTalks B.took B.may_refuse place text.now from
        (D.wire dialer.old) known.old result taker.old (D.wire dialer.new) known.new taker.new }
{
    match dialer.dial(host, port) {
        Ok(()) => talk(dialer, room, text, from, known, taker),
        Err(FolderFault::Failed) => Err(PieceFault::Dial),
        Err(FolderFault::OutOfMemory) => Err(PieceFault::OutOfMemory),
    }
}

/// Asks over the connection that stands, and takes the reply.
fn talk<D: Dialer, B: Taker>(
    dialer: &mut D,
    room: &mut Room,
    text: &[u8],
    from: u64,
    known: &mut Option<u64>,
    taker: &mut B,
) -> Result<Fetched, PieceFault>
    requires connected { IsSome (D.wire dialer.old).line }
    requires window { room.old.window ≡ record { bytes = []; room = heads_room } }
    requires spare { from ≤ limit → limit ≤ B.spare taker.old + from }
    requires whole { IsWholeText text.now }
    ensures counts { Counts (D.wire dialer.old) (D.wire dialer.new) (names_call result) }
    ensures origin { IfErr result (λ fault. origin fault ≢ of_url) }
    ensures known { IfSome known.old (λ total. known.new ≡ Some total) }
    ensures kept { Keeps B.took B.may_refuse result taker.old taker.new }
    ensures talks { IsTrue (D.wire dialer.new).tells → (place : Place) (dial : ℕ)
        → (D.wire dialer.old).line ≡ Some (fresh place dial)
        → ((D.wire dialer.new).dials ≡ (D.wire dialer.old).dials)
        × Talks B.took B.may_refuse place dial text.now from
        (D.wire dialer.old) known.old result taker.old (D.wire dialer.new) known.new taker.new }
{
    match send_all(dialer, text) {
        Ok(()) => take_reply(
            dialer,
            &mut room.window,
            &mut room.headers,
            from,
            known,
            taker,
        ),
        Err(fault) => Err(fault),
    }
}
