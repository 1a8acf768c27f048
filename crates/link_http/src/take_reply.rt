//! A reply, read and taken.
ghost use Rattle.std.specs.Prelude.{IfOk, ◌≡◌, ◌≢◌, ◌≤◌, ◌+◌, IsTrue, IsSome, IfSome, IfErr, Some, [], All, length, take, drop};
ghost use Rattle.httparse.specs.Spans.{IsHeaderWithin, IsResponseWithin};
ghost use Rattle.http_reply.specs.Chunked.{limit};
ghost use Rattle.http_reply.specs.Fields.{fields_at};
ghost use Rattle.http_reply.specs.Heads.{heads_room};
ghost use Rattle.http_reply.specs.Verdict.{judge, FitsPlan};
ghost use Rattle.http_reply.specs.Faults.{is_after_request, is_cause};
ghost use Rattle.link_http.specs.Wire.{Wire, Counts, AsksNothing, left};
ghost use Rattle.link_http.specs.Taking.{names_call, Follows};

use crate::dialer::Dialer;
use crate::fetched::Fetched;
use crate::final_head::FinalHead;
use crate::reply_heads::read_heads;
use crate::take_body::{note_total, take_body};
use crate::window::Window;
use folder_base::Taker;
use http_reply::{Judged, PieceFault, judge};
use httparse::spans::HeaderSpan;

/// Reads the reply that is to come, and takes what its verdict gives.
pub fn take_reply<D: Dialer, B: Taker>(
    dialer: &mut D,
    window: &mut Window,
    headers: &mut Vec<HeaderSpan>,
    from: u64,
    known: &mut Option<u64>,
    taker: &mut B,
) -> Result<Fetched, PieceFault>
    requires connected { IsSome (D.wire dialer.old).line }
    requires empty { window.old.bytes ≡ [] }
    requires room { window.old.room ≡ heads_room }
    requires spare { from ≤ limit → limit ≤ B.spare taker.old + from }
    ensures counts { Counts (D.wire dialer.old) (D.wire dialer.new) (names_call result) }
    ensures connected { IsSome (D.wire dialer.new).line }
    ensures asks { IsTrue (D.wire dialer.new).tells
        → AsksNothing (D.wire dialer.old) (D.wire dialer.new) }
    ensures known { IfSome known.old (λ total. known.new ≡ Some total) }
    ensures fault { IfErr result (λ fault. IsTrue (is_after_request fault)) }
    ensures follows { let tells = IsTrue (D.wire dialer.new).tells in
        let reply = left (D.wire dialer.old) in
        Follows B.took B.may_refuse tells from known.old reply result taker.old known.new taker.new }
{
    let head = match read_heads(dialer, window, headers, from) {
        Ok(head) => head,
        Err(fault) => return Err(fault),
    };
    let judged = judge_head(window.bytes(), headers, head, from, *known);
    let end = head.start + head.spans.len;
    window.pass(end);
    match judged.plan {
        Ok(plan) => take_body(dialer, window, plan, end as u64, from, known, taker),
        Err(fault) => {
            if let Some(total) = judged.told {
                note_total(known, total);
            }
            Err(fault)
        }
    }
}

/// What the final head asks of its body.
fn judge_head(
    came: &[u8],
    headers: &[HeaderSpan],
    head: FinalHead,
    from: u64,
    known: Option<u64>,
) -> Judged
    requires start { head.start ≤ length came.now }
    requires within { IsResponseWithin (drop head.start came.now) headers.now head.spans }
    ensures value { let fields = fields_at (drop head.start came.now) (take head.spans.headers headers.now) in
        result ≡ judge from known head.spans.code fields }
    ensures fits { IfOk result.plan (FitsPlan from) }
    ensures cause { IfErr result.plan (λ fault. IsTrue (is_cause fault)) }
{
    let (_, bytes) = came.split_at(head.start);
    let (fields, _) = headers.split_at(head.spans.headers);
    judge(from, known, head.spans.code, bytes, fields)
}
