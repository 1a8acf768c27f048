//! Bytes of a reply that came and were not used yet.
ghost use Rattle.std.specs.Prelude.{◌≡◌, ◌≤◌, ◌<◌, ◌+◌, ◌-◌, ◌++◌, [], IsTrue, IsSome, IfOk, is_err, OnOk, OnErr, length, take, drop, slice_range, IsFalse};
ghost use Rattle.http_reply.specs.Heads.{heads_room};
ghost use Rattle.link_http.specs.Wire.{Counts, AsksNothing, left, Held, Fills, Hears};

use crate::dialer::Dialer;
use std::alloc::Global;
use std::marker::Model;
use text_base::{Failed, OutOfMemory};

const HEADS_ROOM: usize = 65_536;

#[derive(Drop)]
pub struct Window {
    store: Vec<u8>,
    start: usize,
    end: usize,
}

impl Model for Window {
    ghost Value = { Held };

    ghost view = { λ w. record { bytes = slice_range w.store.items w.start w.end; room = length w.store.items } };

    ghost invariant = { λ w. (w.start ≤ w.end) × (w.end ≤ length w.store.items) };
}

impl Window {
    /// With room for the heads of a reply.
    pub fn new(alloc: Global) -> Result<Window, OutOfMemory>
        ensures { IfOk result (λ window. window ≡ record { bytes = []; room = heads_room }) }
    {
        let store = vec![in alloc; 0; HEADS_ROOM]?;
        Ok(Window {
            store,
            start: 0,
            end: 0,
        })
    }

    pub fn bytes(&self) -> &[u8]
        ensures value { result.now ≡ self.now.bytes }
        ensures within { length self.now.bytes ≤ self.now.room }
    {
        &self.store[self.start..self.end]
    }

    pub fn pass(&mut self, n: usize)
        requires { n ≤ length self.old.bytes }
        ensures { self.new ≡ record self.old { bytes = drop n self.old.bytes } }
    {
        self.start += n;
    }

    /// Reads more, and answers whether something came.
    pub fn fill<D: Dialer>(&mut self, dialer: &mut D) -> Result<bool, Failed>
        requires connected { IsSome (D.wire dialer.old).line }
        requires room { length self.old.bytes < self.old.room }
        ensures counts { Counts (D.wire dialer.old) (D.wire dialer.new) (is_err result) }
        ensures connected { IsSome (D.wire dialer.new).line }
        ensures asks { IsTrue (D.wire dialer.new).tells → AsksNothing (D.wire dialer.old) (D.wire dialer.new) }
        ensures fits { length self.new.bytes ≤ self.new.room }
        ensures room { self.new.room ≡ self.old.room }
        ensures more { IfOk result (λ more. IsTrue more → length self.old.bytes < length self.new.bytes) }
        ensures front { IfOk result (λ more.
            take (length self.old.bytes) self.new.bytes ≡ self.old.bytes) }
        ensures none { IfOk result (λ more. IsFalse more → self.new.bytes ≡ self.old.bytes) }
        ensures told { IsTrue (D.wire dialer.new).tells → IfOk result (λ more.
            Fills more self.old.bytes self.new.bytes (D.wire dialer.old) (D.wire dialer.new)) }
    {
        let len = self.end - self.start;
        to_front(&mut self.store, self.start, self.end);
        self.start = 0;
        self.end = len;
        let n = receive(dialer, &mut self.store, len)?;
        self.end = len + n;
        Ok(n > 0)
    }
}

/// Moves a part to the front.
fn to_front(store: &mut Vec<u8>, start: usize, end: usize)
    requires ordered { start ≤ end }
    requires within { end ≤ length store.old.items }
    ensures len { length store.new.items ≡ length store.old.items }
    ensures moved { take (end - start) store.new.items ≡ slice_range store.old.items start end }
{
    if start > 0 {
        store.copy_within(start..end, 0);
    }
}

/// Reads into the store from `end` on.
fn receive<D: Dialer>(dialer: &mut D, store: &mut Vec<u8>, end: usize) -> Result<usize, Failed>
    requires connected { IsSome (D.wire dialer.old).line }
    requires within { end ≤ length store.old.items }
    ensures counts { Counts (D.wire dialer.old) (D.wire dialer.new) (is_err result) }
    ensures connected { IsSome (D.wire dialer.new).line }
    ensures asks { IsTrue (D.wire dialer.new).tells → AsksNothing (D.wire dialer.old) (D.wire dialer.new) }
    ensures len { length store.new.items ≡ length store.old.items }
    ensures kept { take end store.new.items ≡ take end store.old.items }
    ensures placed { IfOk result (λ n. end + n ≤ length store.old.items) }
    ensures told { IsTrue (D.wire dialer.new).tells → IfOk result (λ n.
        Hears (length store.old.items - end) n (drop end store.new.items)
        (D.wire dialer.old) (D.wire dialer.new)) }
{
    receive_behind(dialer, store.as_mut_slice(), end)
}

fn receive_behind<D: Dialer>(dialer: &mut D, store: &mut [u8], end: usize) -> Result<usize, Failed>
    requires connected { IsSome (D.wire dialer.old).line }
    requires within { end ≤ length store.old }
    ensures counts { Counts (D.wire dialer.old) (D.wire dialer.new) (is_err result) }
    ensures connected { IsSome (D.wire dialer.new).line }
    ensures asks { IsTrue (D.wire dialer.new).tells → AsksNothing (D.wire dialer.old) (D.wire dialer.new) }
    ensures kept { take end store.new ≡ take end store.old }
    ensures placed { IfOk result (λ n. end + n ≤ length store.old) }
    ensures told { IsTrue (D.wire dialer.new).tells → IfOk result (λ n.
        Hears (length store.old - end) n (drop end store.new)
        (D.wire dialer.old) (D.wire dialer.new)) }
{
    let (_, free) = store.split_at_mut(end);
    dialer.recv(free)
}
