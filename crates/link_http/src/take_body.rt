//! The body of a reply, taken by the plan that its final head asks for.
ghost use Rattle.std.specs.Prelude.{◌≡◌, ◌≤◌, ◌<◌, ◌+◌, ◌++◌, ◌^◌, IsTrue, IsSome, IfErr, IfSome, Some, true};
ghost use Rattle.std.specs.Option.{option_or};
ghost use Rattle.http_reply.specs.Chunked.{limit};
ghost use Rattle.http_reply.specs.Verdict.{FitsPlan, plan_verdict};
ghost use Rattle.link_http.specs.Wire.{Wire, Counts, AsksNothing, left};
ghost use Rattle.link_http.specs.Taking.{names_call, Takes, Tells, of_body};
ghost use Rattle.http_reply.specs.Faults.{is_after_request, is_broken};

use crate::body::pour;
use crate::body_fault::BodyFault;
use crate::dialer::Dialer;
use crate::endings::{chunked_end, ranged_end, sized_end};
use crate::fetched::Fetched;
use crate::share::Share;
use crate::window::Window;
use folder_base::{StoreFault, Taker};
use http_reply::{Chunks, PieceFault, Plan};

/// Takes the body by the plan. The bytes at hand, from this offset of the reply on, begin it.
pub fn take_body<D: Dialer, B: Taker>(
    dialer: &mut D,
    window: &mut Window,
    plan: Plan,
    at: u64,
    from: u64,
    known: &mut Option<u64>,
    taker: &mut B,
) -> Result<Fetched, PieceFault>
    requires connected { IsSome (D.wire dialer.old).line }
    requires room { 256 ≤ window.old.room }
    requires at { at < 2 ^ 62 }
    requires plan { FitsPlan from (plan) }
    requires spare { from ≤ limit → limit ≤ B.spare taker.old + from }
    ensures counts { Counts (D.wire dialer.old) (D.wire dialer.new) (names_call result) }
    ensures connected { IsSome (D.wire dialer.new).line }
    ensures asks { IsTrue (D.wire dialer.new).tells
        → AsksNothing (D.wire dialer.old) (D.wire dialer.new) }
    ensures known { IfSome known.old (λ total. known.new ≡ Some total) }
    ensures fault { IfErr result (λ fault. IsTrue (is_after_request fault)) }
    ensures takes { let rest = window.old.bytes ++ left (D.wire dialer.old) in
        let verdict = plan_verdict from known.old at rest (plan) in
        let tells = IsTrue (D.wire dialer.new).tells in
        Takes B.took B.may_refuse verdict tells result taker.old taker.new }
    ensures told { let rest = window.old.bytes ++ left (D.wire dialer.old) in
        let told = (plan_verdict from known.old at rest (plan)).told in
        Tells told (IsTrue (D.wire dialer.new).tells) result known.old known.new }
{
    match plan {
        Plan::Nothing { total } => {
            note_total(known, total);
            Ok(Fetched { total })
        }
        Plan::Whole { total: Some(total) } => {
            take_sized(dialer, window, total, at, from, known, taker)
        }
        Plan::Whole { total: None } => take_chunked(dialer, window, at, from, known, taker),
        Plan::Ranged {
            count,
            total,
            chunked,
        } => take_range(
            dialer, window, count, total, chunked, at, from, known, taker,
        ),
    }
}

/// Takes what stands behind the first `from` bytes of a whole resource of a length.
fn take_sized<D: Dialer, B: Taker>(
    dialer: &mut D,
    window: &mut Window,
    total: u64,
    at: u64,
    from: u64,
    known: &mut Option<u64>,
    taker: &mut B,
) -> Result<Fetched, PieceFault>
    requires connected { IsSome (D.wire dialer.old).line }
    requires room { 256 ≤ window.old.room }
    requires at { at < 2 ^ 62 }
    requires plan { FitsPlan from (Plan.Whole (Some total)) }
    requires spare { from ≤ limit → limit ≤ B.spare taker.old + from }
    ensures counts { Counts (D.wire dialer.old) (D.wire dialer.new) (names_call result) }
    ensures connected { IsSome (D.wire dialer.new).line }
    ensures asks { IsTrue (D.wire dialer.new).tells
        → AsksNothing (D.wire dialer.old) (D.wire dialer.new) }
    ensures known { IfSome known.old (λ total. known.new ≡ Some total) }
    ensures fault { IfErr result (λ fault. IsTrue (is_after_request fault)) }
    ensures takes { let rest = window.old.bytes ++ left (D.wire dialer.old) in
        let verdict = plan_verdict from known.old at rest (Plan.Whole (Some total)) in
        let tells = IsTrue (D.wire dialer.new).tells in
        Takes B.took B.may_refuse verdict tells result taker.old taker.new }
    ensures told { let rest = window.old.bytes ++ left (D.wire dialer.old) in
        let told = (plan_verdict from known.old at rest (Plan.Whole (Some total))).told in
        Tells told (IsTrue (D.wire dialer.new).tells) result known.old known.new }
{
    note_total(known, total);
    let share = Share::After {
        skip: from,
        passed: 0,
    };
    match pour(dialer, window, Chunks::sized(at, total), share, taker) {
        Ok(end) => sized_end(from, total, end),
        Err(fault) => Err(broken(fault)),
    }
}

/// Takes what stands behind the first `from` bytes of a whole resource in chunks.
fn take_chunked<D: Dialer, B: Taker>(
    dialer: &mut D,
    window: &mut Window,
    at: u64,
    from: u64,
    known: &mut Option<u64>,
    taker: &mut B,
) -> Result<Fetched, PieceFault>
    requires connected { IsSome (D.wire dialer.old).line }
    requires room { 256 ≤ window.old.room }
    requires at { at < 2 ^ 62 }
    requires plan { FitsPlan from (Plan.Whole None) }
    requires spare { from ≤ limit → limit ≤ B.spare taker.old + from }
    ensures counts { Counts (D.wire dialer.old) (D.wire dialer.new) (names_call result) }
    ensures connected { IsSome (D.wire dialer.new).line }
    ensures asks { IsTrue (D.wire dialer.new).tells
        → AsksNothing (D.wire dialer.old) (D.wire dialer.new) }
    ensures known { IfSome known.old (λ total. known.new ≡ Some total) }
    ensures fault { IfErr result (λ fault. IsTrue (is_after_request fault)) }
    ensures takes { let rest = window.old.bytes ++ left (D.wire dialer.old) in
        let verdict = plan_verdict from known.old at rest (Plan.Whole None) in
        let tells = IsTrue (D.wire dialer.new).tells in
        Takes B.took B.may_refuse verdict tells result taker.old taker.new }
    ensures told { let rest = window.old.bytes ++ left (D.wire dialer.old) in
        let told = (plan_verdict from known.old at rest (Plan.Whole None)).told in
        Tells told (IsTrue (D.wire dialer.new).tells) result known.old known.new }
{
    let share = Share::After {
        skip: from,
        passed: 0,
    };
    match pour(dialer, window, Chunks::new(at), share, taker) {
        Ok(end) => chunked_end(from, known, end),
        Err(fault) => Err(broken(fault)),
    }
}

/// Takes `count` bytes from `from` on.
fn take_range<D: Dialer, B: Taker>(
    dialer: &mut D,
    window: &mut Window,
    count: u64,
    total: u64,
    chunked: bool,
    at: u64,
    from: u64,
    known: &mut Option<u64>,
    taker: &mut B,
) -> Result<Fetched, PieceFault>
    requires connected { IsSome (D.wire dialer.old).line }
    requires room { 256 ≤ window.old.room }
    requires at { at < 2 ^ 62 }
    requires plan { FitsPlan from (Plan.Ranged count total chunked) }
    requires spare { from ≤ limit → limit ≤ B.spare taker.old + from }
    ensures counts { Counts (D.wire dialer.old) (D.wire dialer.new) (names_call result) }
    ensures connected { IsSome (D.wire dialer.new).line }
    ensures asks { IsTrue (D.wire dialer.new).tells
        → AsksNothing (D.wire dialer.old) (D.wire dialer.new) }
    ensures known { IfSome known.old (λ total. known.new ≡ Some total) }
    ensures fault { IfErr result (λ fault. IsTrue (is_after_request fault)) }
    ensures takes { let rest = window.old.bytes ++ left (D.wire dialer.old) in
        let verdict = plan_verdict from known.old at rest (Plan.Ranged count total chunked) in
        let tells = IsTrue (D.wire dialer.new).tells in
        Takes B.took B.may_refuse verdict tells result taker.old taker.new }
    ensures told { let rest = window.old.bytes ++ left (D.wire dialer.old) in
        let told = (plan_verdict from known.old at rest (Plan.Ranged count total chunked)).told in
        Tells told (IsTrue (D.wire dialer.new).tells) result known.old known.new }
{
    note_total(known, total);
    let body = if chunked {
        Chunks::new(at)
    } else {
        Chunks::sized(at, count)
    };
    let share = Share::Upto {
        left: count,
        passed: 0,
    };
    match pour(dialer, window, body, share, taker) {
        Ok(end) => ranged_end(from, count, total, end),
        Err(fault) => Err(broken(fault)),
    }
}

/// The first total that is told is the one that is known.
pub fn note_total(known: &mut Option<u64>, total: u64)
    ensures { known.new ≡ option_or known.old (Some total) }
{
    if known.is_none() {
        *known = Some(total);
    }
}

/// The answer to a call that failed.
fn broken(fault: BodyFault) -> PieceFault
    ensures value { result ≡ of_body fault }
    ensures broken { is_broken result ≡ true }
    ensures fault { IsTrue (is_after_request result) }
{
    match fault {
        BodyFault::Recv => PieceFault::Recv,
        BodyFault::Store {
            fault: StoreFault::Folder { call },
        } => PieceFault::Folder { call },
        BodyFault::Store {
            fault: StoreFault::OutOfMemory,
        } => PieceFault::OutOfMemory,
    }
}
