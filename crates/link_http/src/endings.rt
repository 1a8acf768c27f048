//! What a body that was taken to its end comes to.
ghost use Rattle.std.specs.Prelude.{◌≡◌, ◌≤◌, ◌+◌, IsTrue, IfErr, IfSome, Some, max};
ghost use Rattle.std.specs.Option.{option_or};
ghost use Rattle.http_reply.specs.Chunked.{limit};
ghost use Rattle.http_reply.specs.Content.{Content};
ghost use Rattle.http_reply.specs.Verdict.{ranged_end, chunked_verdict, sized_end, got_after, total_end, stop_fault};
ghost use Rattle.link_http.specs.Body.{share_end, EndFits};
ghost use Rattle.link_http.specs.Taking.{as_end, is_judged};
ghost use Rattle.http_reply.specs.Faults.{is_cause};
ghost use Rattle.link_http.specs.declared.share.Share.TheVariants.{After, Upto};

use crate::body_end::BodyEnd;
use crate::fetched::Fetched;
use http_reply::{PieceFault, Stop, changes};

/// A range of `count` bytes from `from` on.
pub fn ranged_end(from: u64, count: u64, total: u64, end: BodyEnd) -> Result<Fetched, PieceFault>
    requires range { from + count ≤ limit }
    requires fits { EndFits end }
    ensures value { (content : Content) → share_end (Upto count 0) content ≡ end
        → as_end result ≡ ranged_end from count total content }
    ensures judged { IsTrue (is_judged result) }
    ensures cause { IfErr result (λ fault. IsTrue (is_cause fault)) }
{
    match end {
        BodyEnd::Full => {
            if from + count == total {
                return Ok(Fetched { total });
            }
            Err(PieceFault::CutShort {
                got: from + count,
                told: Some(total),
            })
        }
        BodyEnd::Stopped { stop, passed } => Err(stop_fault(from + passed, Some(total), stop)),
    }
}

/// A whole resource of a length, of which the first `from` bytes are there.
pub fn sized_end(from: u64, total: u64, end: BodyEnd) -> Result<Fetched, PieceFault>
    ensures value { (content : Content) → share_end (After from 0) content ≡ end
        → as_end result ≡ sized_end total (got_after from content.bytes) content.stop }
    ensures judged { IsTrue (is_judged result) }
    ensures cause { IfErr result (λ fault. IsTrue (is_cause fault)) }
{
    match end {
        BodyEnd::Full => Ok(Fetched { total }),
        BodyEnd::Stopped { stop, passed } => match stop {
            Stop::Last => Ok(Fetched { total }),
            Stop::Cut => Err(PieceFault::CutShort {
                got: greater(from, passed),
                told: Some(total),
            }),
            Stop::Bad { at } => Err(PieceFault::BadHead { at }),
            Stop::Long { told } => Err(PieceFault::PieceLong { told }),
        },
    }
}

/// A whole resource in chunks, of which the first `from` bytes are there. The last chunk tells
/// the total.
pub fn chunked_end(from: u64, known: &mut Option<u64>, end: BodyEnd) -> Result<Fetched, PieceFault>
    ensures value { (content : Content) → share_end (After from 0) content ≡ end
        → as_end result ≡ (chunked_verdict from known.old content.bytes content.stop).end }
    ensures told { (content : Content) → share_end (After from 0) content ≡ end
        → let told = (chunked_verdict from known.old content.bytes content.stop).told in
        known.new ≡ option_or known.old told }
    ensures known { IfSome known.old (λ total. known.new ≡ Some total) }
    ensures judged { IsTrue (is_judged result) }
    ensures cause { IfErr result (λ fault. IsTrue (is_cause fault)) }
{
    match end {
        BodyEnd::Full => Err(PieceFault::NoLength),
        BodyEnd::Stopped { stop, passed } => match stop {
            Stop::Last => chunked_total(from, known, passed),
            Stop::Cut => Err(PieceFault::CutShort {
                got: greater(from, passed),
                told: None,
            }),
            Stop::Bad { at } => Err(PieceFault::BadHead { at }),
            Stop::Long { told } => Err(PieceFault::PieceLong { told }),
        },
    }
}

/// The total that the last chunk told.
fn chunked_total(from: u64, known: &mut Option<u64>, total: u64) -> Result<Fetched, PieceFault>
    ensures value { as_end result ≡ total_end from known.old total }
    ensures told { known.new ≡ option_or known.old (Some total) }
    ensures judged { IsTrue (is_judged result) }
    ensures cause { IfErr result (λ fault. IsTrue (is_cause fault)) }
{
    let fault = changes(*known, total);
    if known.is_none() {
        *known = Some(total);
    }
    if let Some(fault) = fault {
        return Err(fault);
    }
    if total < from {
        return Err(PieceFault::BadRange {
            asked: from,
            told: Some(total),
        });
    }
    Ok(Fetched { total })
}

/// A body that stops before its end.
fn stop_fault(got: u64, told: Option<u64>, stop: Stop) -> PieceFault
    ensures value { result ≡ stop_fault got told stop }
    ensures cause { IsTrue (is_cause result) }
{
    match stop {
        Stop::Last => PieceFault::CutShort { got, told },
        Stop::Cut => PieceFault::CutShort { got, told },
        Stop::Bad { at } => PieceFault::BadHead { at },
        Stop::Long { told } => PieceFault::PieceLong { told },
    }
}

/// The greater one.
fn greater(from: u64, passed: u64) -> u64
    ensures { result ≡ max from passed }
{
    if from < passed { passed } else { from }
}
