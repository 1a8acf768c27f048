//! The heads of a reply, read up to the final one.
ghost use Rattle.std.specs.Prelude.{◌≡◌, ◌≤◌, IsTrue, IsSome, IfErr, IfOk, [], length, drop};
ghost use Rattle.http_reply.specs.Heads.{heads_room};
ghost use Rattle.httparse.specs.Spans.{IsResponseWithin};
ghost use Rattle.link_http.specs.Taking.{names_call};
ghost use Rattle.link_http.specs.Wire.{Wire, Counts, AsksNothing, left};
ghost use Rattle.link_http.specs.Heads.{GivesHeads, IsHeadsFault};

use crate::dialer::Dialer;
use crate::final_head::FinalHead;
use crate::head_lines::HeadLines;
use crate::room::widen;
use crate::window::Window;
use http_reply::{HeadNext, PieceFault};
use httparse::spans::HeaderSpan;
use text_base::{Failed, OutOfMemory};

/// Reads the heads of a reply, for a try from `from` on. They stay at hand. A head is parsed once its
/// empty line has come, and not at each `recv`. It is taken at once then, whether or not more comes.
/// Only a head of more fields than there is room for takes the whole room.
pub fn read_heads<D: Dialer>(
    dialer: &mut D,
    window: &mut Window,
    headers: &mut Vec<HeaderSpan>,
    from: u64,
) -> Result<FinalHead, PieceFault>
    requires connected { IsSome (D.wire dialer.old).line }
    requires empty { window.old.bytes ≡ [] }
    requires room { window.old.room ≡ heads_room }
    ensures counts { Counts (D.wire dialer.old) (D.wire dialer.new) (names_call result) }
    ensures connected { IsSome (D.wire dialer.new).line }
    ensures room { window.new.room ≡ window.old.room }
    ensures fault { IfErr result IsHeadsFault }
    ensures within { IfOk result (λ head. (head.start ≤ length window.new.bytes)
        × IsResponseWithin (drop head.start window.new.bytes) headers.new.items head.spans) }
    ensures asks { IsTrue (D.wire dialer.new).tells
        → AsksNothing (D.wire dialer.old) (D.wire dialer.new) }
    ensures gives { IsTrue (D.wire dialer.new).tells
        → GivesHeads (left (D.wire dialer.old)) from window.new.bytes headers.new.items result
        (left (D.wire dialer.new)) }
{
    let mut at = 0;
    let mut lines = HeadLines::new(at);
    let mut ended = false;
    'heads: loop {
        match lines.next_head(window.bytes(), at, ended, headers.as_mut_slice()) {
            HeadNext::More { never: _ } => match window.fill(dialer) {
                Ok(more) => ended = !more,
                Err(Failed) => return Err(PieceFault::Recv),
            },
            HeadNext::Crowded => match widen(headers) {
                Ok(()) => {}
                Err(OutOfMemory) => return Err(PieceFault::OutOfMemory),
            },
            HeadNext::Again { at: next } => at = next,
            HeadNext::Final { spans, at: _ } => return Ok(FinalHead { start: at, spans }),
            HeadNext::Bad { at: place } => return Err(PieceFault::BadHead { at: place as u64 }),
            HeadNext::Long => return Err(PieceFault::HeadLong),
            HeadNext::Short => return Err(PieceFault::CutShort {
                got: from,
                told: None,
            }),
        }
    }
}
