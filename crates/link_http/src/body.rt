//! A body, from the dialer to the taker.
ghost use Rattle.std.specs.Prelude.{◌≡◌, ◌≤◌, ◌<◌, ◌+◌, ◌-◌, ℕ, List, slice_range, min, take, drop, is_err, OnErr, IsTrue, IsSome, IfSome, IfOk, IfErr, IsErrOf, OnOk, length};
ghost use Rattle.http_reply.specs.Chunked.{limit};
ghost use Rattle.http_reply.specs.Machine.{IsSound, passed};
ghost use Rattle.link_http.specs.Wire.{Wire, Counts, AsksNothing};
ghost use Rattle.link_http.specs.Body.{is_unheard, Turns, Goes, Ends, Fails, At, Hands, Reads, Cuts, IsWanting, HasRoom, Pours, work, passed_of, EndFits, SomeFits};
ghost use Rattle.http_reply.specs.Content.{Content};
ghost use Rattle.folder_base.specs.Took.{TookSome};
ghost use Rattle.folder_base.specs.declared.store_fault.StoreFault.{StoreFault};

use crate::body_end::BodyEnd;
use crate::body_fault::BodyFault;
use crate::cut::part_of;
use crate::dialer::Dialer;
use crate::share::Share;
use crate::window::Window;
use folder_base::{StoreFault, Taker};
use http_reply::{Chunks, Step, Stop};
use text_base::Failed;

/// A body in chunks goes to the taker, as far as it is in the share.
pub fn pour<D: Dialer, B: Taker>(
    dialer: &mut D,
    window: &mut Window,
    mut chunks: Chunks,
    mut share: Share,
    taker: &mut B,
) -> Result<BodyEnd, BodyFault>
    requires connected { IsSome (D.wire dialer.old).line }
    requires sound { IsSound chunks }
    requires room { 256 ≤ window.old.room }
    requires spare { HasRoom share (passed chunks) (B.spare taker.old) }
    requires wanting { IsWanting share }
    ensures connected { IsSome (D.wire dialer.new).line }
    ensures counts { Counts (D.wire dialer.old) (D.wire dialer.new) (is_unheard result) }
    ensures fits { IfOk result EndFits }
    ensures pours { Pours B.took B.may_refuse result
        (record { share = share; chunks = chunks; held = window.old; wire = D.wire dialer.old })
        taker.old
        (D.wire dialer.new) taker.new }
{
    'turns: loop {
        match turn(dialer, window, &mut chunks, &mut share, taker) {
            Ok(None) => {}
            Ok(Some(end)) => return Ok(end),
            Err(fault) => return Err(fault),
        }
    }
}

/// One turn: some bytes are passed or taken, or more are read.
fn turn<D: Dialer, B: Taker>(
    dialer: &mut D,
    window: &mut Window,
    chunks: &mut Chunks,
    share: &mut Share,
    taker: &mut B,
) -> Result<Option<BodyEnd>, BodyFault>
    requires connected { IsSome (D.wire dialer.old).line }
    requires sound { IsSound chunks.old }
    requires room { 256 ≤ window.old.room }
    requires spare { HasRoom share.old (passed chunks.old) (B.spare taker.old) }
    requires wanting { IsWanting share.old }
    ensures connected { IsSome (D.wire dialer.new).line }
    ensures sound { IsSound chunks.new }
    ensures room { window.new.room ≡ window.old.room }
    ensures spare { result ≡ Ok None → HasRoom share.new (passed chunks.new) (B.spare taker.new) }
    ensures wanting { IsWanting share.new }
    ensures counts { Counts (D.wire dialer.old) (D.wire dialer.new) (is_unheard result) }
    ensures work { result ≡ Ok None → work chunks.new window.new < work chunks.old window.old }
    ensures fits { SomeFits result }
    ensures turns { Turns B.took B.may_refuse result
        (record {
          share = share.old;
          chunks = chunks.old;
          held = window.old;
          wire = D.wire dialer.old;
        }) taker.old
        (record {
          share = share.new;
          chunks = chunks.new;
          held = window.new;
          wire = D.wire dialer.new;
        }) taker.new }
{
    match chunks.step(window.bytes()) {
        Step::Need => read_more(dialer, window, passed_of(*share)),
        Step::Pass(n) => {
            window.pass(n);
            Ok(None)
        }
        Step::Take(n) => hand_over(window, share, taker, n),
        Step::End(stop) => {
            let passed = passed_of(*share);
            Ok(Some(BodyEnd::Stopped { stop, passed }))
        }
    }
}

/// How many bytes of the body were passed.
fn passed_of(share: Share) -> u64
    ensures { result ≡ passed_of share }
{
    match share {
        Share::After { skip: _, passed } => passed,
        Share::Upto { left: _, passed } => passed,
    }
}

/// Reads more of the body, of which so many bytes were passed.
fn read_more<D: Dialer>(
    dialer: &mut D,
    window: &mut Window,
    passed: u64,
) -> Result<Option<BodyEnd>, BodyFault>
    requires connected { IsSome (D.wire dialer.old).line }
    requires room { length window.old.bytes < window.old.room }
    requires passed { passed ≤ limit }
    ensures counts { Counts (D.wire dialer.old) (D.wire dialer.new) (is_err result) }
    ensures connected { IsSome (D.wire dialer.new).line }
    ensures room { window.new.room ≡ window.old.room }
    ensures asks { IsTrue (D.wire dialer.new).tells → AsksNothing (D.wire dialer.old) (D.wire dialer.new) }
    ensures fits { SomeFits result }
    ensures reads { Reads passed result window.old.bytes window.new.bytes
        (D.wire dialer.old) (D.wire dialer.new) }
{
    match window.fill(dialer) {
        Ok(true) => Ok(None),
        Ok(false) => Ok(Some(BodyEnd::Stopped {
            stop: Stop::Cut,
            passed,
        })),
        Err(Failed) => Err(BodyFault::Recv),
    }
}

/// Hands the first n bytes at hand to the taker, as far as they are in the share.
fn hand_over<B: Taker>(
    window: &mut Window,
    share: &mut Share,
    taker: &mut B,
    n: usize,
) -> Result<Option<BodyEnd>, BodyFault>
    requires within { n ≤ length window.old.bytes }
    requires spare { (p : ℕ) × (p + n ≤ limit) × HasRoom share.old p (B.spare taker.old) }
    requires wanting { IsWanting share.old }
    ensures wanting { IsWanting share.new }
    ensures room { window.new.room ≡ window.old.room }
    ensures passed { result ≡ Ok None → window.new.bytes ≡ drop n window.old.bytes }
    ensures spare { result ≡ Ok None → (p : ℕ) → p + n ≤ limit
        → HasRoom share.old p (B.spare taker.old)
        → HasRoom share.new (p + n) (B.spare taker.new) }
    ensures store { IsErrOf result BodyFault.Recv → ⊥ }
    ensures fits { SomeFits result }
    ensures hands { let piece = take n window.old.bytes in
        Hands B.took B.may_refuse result piece share.old taker.old share.new taker.new }
{
    let cut = part_of(*share, n);
    match put(taker, &window.bytes()[cut.from..cut.to]) {
        Err(fault) => Err(fault),
        Ok(()) => match cut.rest {
            None => Ok(Some(BodyEnd::Full)),
            Some(rest) => {
                *share = rest;
                window.pass(n);
                Ok(None)
            }
        },
    }
}

fn put<B: Taker>(taker: &mut B, bytes: &[u8]) -> Result<(), BodyFault>
    requires { length bytes.now ≤ B.spare taker.old }
    ensures ok { OnOk result (B.took taker.old bytes.now taker.new
        × (B.spare taker.new + length bytes.now ≡ B.spare taker.old)) }
    ensures refused { OnErr result (TookSome B.took taker.old bytes.now taker.new) }
    ensures store { IfErr result (λ fault. (f : StoreFault) × (fault ≡ BodyFault.Store f)
        × B.may_refuse taker.old bytes.now f) }
{
    match taker.put(bytes) {
        Ok(()) => Ok(()),
        Err(fault) => Err(BodyFault::Store { fault }),
    }
}
