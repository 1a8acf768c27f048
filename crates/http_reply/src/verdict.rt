//! A final head, judged by its status and its fields.
ghost use Rattle.std.specs.Prelude.{None, IfOk, ◌≡◌, ◌<◌, ◌≤◌, All, length, Bool, IfErr, IfSome, IsTrue};
ghost use Rattle.httparse.specs.Spans.{IsHeaderWithin};
ghost use Rattle.http_reply.specs.Fields.{fields_at, content_range};
ghost use Rattle.http_reply.specs.Verdict.{judge, judge_200, judge_206, judge_416, total_fault, changes, refuse, accept, FitsPlan};
ghost use Rattle.http_reply.specs.Chunked.{limit};
ghost use Rattle.http_reply.specs.Faults.{is_cause};

use crate::fields::{content_range, has_no_length_but, is_chunked, is_encoded, length_told};
use crate::judged::Judged;
use crate::piece_fault::PieceFault;
use crate::plan::Plan;
use crate::range::Range;
use httparse::spans::HeaderSpan;

const LIMIT: u64 = 1_099_511_627_776;

#[tactic(auto, unfolding(crate::specs::Verdict::judge))]
/// What a final head asks of its body, for a try from `from` on where a total may be known.
pub fn judge(
    from: u64,
    known: Option<u64>,
    code: u16,
    bytes: &[u8],
    headers: &[HeaderSpan],
) -> Judged
    requires { All (IsHeaderWithin (length bytes.now)) headers.now }
    ensures value { result ≡ judge from known code (fields_at bytes.now headers.now) }
    ensures fits { IfOk result.plan (FitsPlan from) }
    ensures cause { IfErr result.plan (λ fault. IsTrue (is_cause fault)) }
{
    if code == 416 {
        return judge_416(from, known, bytes, headers);
    }
    if code != 200 && code != 206 {
        return refuse(None, PieceFault::Status { code });
    }
    if is_encoded(bytes, headers) {
        return refuse(None, PieceFault::Encoded);
    }
    if code == 206 {
        return judge_206(from, known, bytes, headers);
    }
    if is_chunked(bytes, headers) {
        return accept(None, Plan::Whole { total: None });
    }
    judge_200(from, known, length_told(bytes, headers))
}

fn judge_416(from: u64, known: Option<u64>, bytes: &[u8], headers: &[HeaderSpan]) -> Judged
    requires { All (IsHeaderWithin (length bytes.now)) headers.now }
    ensures value { let fields = fields_at bytes.now headers.now in
        result ≡ judge_416 from known fields (content_range fields) }
    ensures fits { IfOk result.plan (FitsPlan from) }
    ensures cause { IfErr result.plan (λ fault. IsTrue (is_cause fault)) }
{
    let Range::Past { total } = content_range(bytes, headers) else {
        return refuse(None, PieceFault::Status { code: 416 });
    };
    if from == 0 {
        return refuse(None, PieceFault::Status { code: 416 });
    }
    if is_encoded(bytes, headers) {
        return refuse(None, PieceFault::Encoded);
    }
    if let Some(fault) = total_fault(known, total) {
        return refuse(Some(total), fault);
    }
    if total != from {
        return refuse(
            Some(total),
            PieceFault::BadRange {
                asked: from,
                told: Some(total),
            },
        );
    }
    accept(Some(total), Plan::Nothing { total })
}

fn judge_206(from: u64, known: Option<u64>, bytes: &[u8], headers: &[HeaderSpan]) -> Judged
    requires { All (IsHeaderWithin (length bytes.now)) headers.now }
    ensures value { let fields = fields_at bytes.now headers.now in
        result ≡ judge_206 from known fields (content_range fields) }
    ensures fits { IfOk result.plan (FitsPlan from) }
    ensures cause { IfErr result.plan (λ fault. IsTrue (is_cause fault)) }
{
    match content_range(bytes, headers) {
        Range::Part { first, last, total } => judge_part(
            from, known, bytes, headers, first, last, total,
        ),
        Range::Open => refuse(None, PieceFault::NoLength),
        Range::Past { total: _ } => refuse(
            None,
            PieceFault::BadRange {
                asked: from,
                told: None,
            },
        ),
        Range::Unreadable => refuse(
            None,
            PieceFault::BadRange {
                asked: from,
                told: None,
            },
        ),
    }
}

/// A part from `first` to `last` of a total.
fn judge_part(
    from: u64,
    known: Option<u64>,
    bytes: &[u8],
    headers: &[HeaderSpan],
    first: u64,
    last: u64,
    total: u64,
) -> Judged
    requires { All (IsHeaderWithin (length bytes.now)) headers.now }
    ensures value { let fields = fields_at bytes.now headers.now in
        result ≡ judge_206 from known fields (Range.Part first last total) }
    ensures fits { IfOk result.plan (FitsPlan from) }
    ensures cause { IfErr result.plan (λ fault. IsTrue (is_cause fault)) }
{
    if let Some(fault) = total_fault(known, total) {
        return refuse(Some(total), fault);
    }
    if from == 0 {
        return refuse(
            Some(total),
            PieceFault::BadRange {
                asked: from,
                told: None,
            },
        );
    }
    let elsewhere = PieceFault::BadRange {
        asked: from,
        told: Some(first),
    };
    if first != from || last < first || total <= last {
        return refuse(Some(total), elsewhere);
    }
    let count = last - first + 1;
    if !has_no_length_but(count, bytes, headers) {
        return refuse(Some(total), elsewhere);
    }
    let chunked = is_chunked(bytes, headers);
    accept(
        Some(total),
        Plan::Ranged {
            count,
            total,
            chunked,
        },
    )
}

fn judge_200(from: u64, known: Option<u64>, total: Option<u64>) -> Judged
    ensures value { result ≡ judge_200 from known total }
    ensures fits { IfOk result.plan (FitsPlan from) }
    ensures cause { IfErr result.plan (λ fault. IsTrue (is_cause fault)) }
{
    let Some(total) = total else {
        return refuse(None, PieceFault::NoLength);
    };
    if let Some(fault) = total_fault(known, total) {
        return refuse(Some(total), fault);
    }
    if total < from {
        return refuse(
            Some(total),
            PieceFault::BadRange {
                asked: from,
                told: Some(total),
            },
        );
    }
    accept(Some(total), Plan::Whole { total: Some(total) })
}

/// Why a total cannot be.
fn total_fault(known: Option<u64>, total: u64) -> Option<PieceFault>
    ensures value { result ≡ total_fault known total }
    ensures fits { result ≡ None → total ≤ limit }
    ensures cause { IfSome result (λ fault. IsTrue (is_cause fault)) }
{
    if total > LIMIT {
        return Some(PieceFault::PieceLong { told: total });
    }
    changes(known, total)
}

/// The total is another than the one known.
pub fn changes(known: Option<u64>, total: u64) -> Option<PieceFault>
    ensures value { result ≡ changes known total }
    ensures cause { IfSome result (λ fault. IsTrue (is_cause fault)) }
{
    match known {
        Some(before) if before != total => Some(PieceFault::SizeChanged { before, now: total }),
        _ => None,
    }
}

fn refuse(told: Option<u64>, fault: PieceFault) -> Judged
    ensures { result ≡ refuse told fault }
{
    Judged {
        told,
        plan: Err(fault),
    }
}

fn accept(told: Option<u64>, plan: Plan) -> Judged
    ensures { result ≡ accept told plan }
{
    Judged {
        told,
        plan: Ok(plan),
    }
}
