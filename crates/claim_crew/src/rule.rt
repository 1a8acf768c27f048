// What holds of the table between any two steps, and what each step tells. Word 0 is the counter (the next number to draw), word 1 the
// stop flag, and each slot has one item.
use crate::task::Task;
use atomic_table::{Join, Play, Split, TableRule};
use std::collections::LinkedList;
use std::marker::PhantomData;
use std::snapshot::Snapshot;

/// What a worker knows of its own steps. It stands in proofs alone: no value of it is made.
pub struct Progress<T> {
    /// The items before any work.
    pub start: LinkedList<T>,
    /// How many workers it stands for: all of them at first, one once they are split.
    pub workers: u64,
    /// How many numbers it drew that no item has.
    pub misses: u64,
    /// One more than the last number that it drew, or 0.
    pub drawn_below: u64,
    /// It is known that all numbers are drawn, or that the flag is set.
    pub finished: bool,
    /// The item that is claimed, as it was then, with its number.
    pub claimed: LinkedList<(u64, T)>,
    /// The items that were put back: number, before, after.
    pub log: LinkedList<(u64, T, T)>,
}

/// What is fixed when the table is made.
#[derive(Drop)]
pub struct TableKey<T> {
    pub items: Snapshot<Vec<T>>,
    pub workers: usize,
}

/// The rule of the table, for the tasks of one type.
pub struct CounterRule<T, H, W: Task<T, H>> {
    of: PhantomData<(T, H, W)>,
}

impl<T, H, W: Task<T, H>> TableRule<T, Progress<T>, TableKey<T>> for CounterRule<T, H, W> {
    ghost use Rattle.claim_crew.specs.Rule.{CounterInvariant, fresh};

    ghost holds = { λ key s. CounterInvariant W.fails key.items.value.items key.workers s };

    ghost first = { λ key. fresh key.items.value.items key.workers };
}

/// The step that adds 1 to the counter, and claims the item of the number that was there.
pub struct DrawNumber;

impl<T> Play<T, Progress<T>> for DrawNumber {
    ghost use Rattle.claim_crew.specs.Rule.{Drew};

    ghost then = { Drew };
}

/// The step that loads the flag, and puts back the item that is claimed, if any.
pub struct LoadFlag;

impl<T> Play<T, Progress<T>> for LoadFlag {
    ghost use Rattle.claim_crew.specs.Rule.{Looked};

    ghost then = { Looked };
}

/// The step that sets the flag, and puts back an item that failed.
pub struct SetFlag;

impl<T> Play<T, Progress<T>> for SetFlag {
    ghost use Rattle.claim_crew.specs.Rule.{Stopped};

    ghost then = { Stopped };
}

/// Cuts one worker off those that a seat stands for.
pub struct SplitWorker;

impl<T> Split<Progress<T>> for SplitWorker {
    ghost use Rattle.claim_crew.specs.Rule.{fresh};
    ghost use Rattle.std.specs.Prelude.{◌-◌};

    ghost left = { λ v. fresh v.start (v.workers - 1) };

    ghost right = { λ v. fresh v.start 1 };
}

/// Joins what two seats know.
pub struct JoinWorkers;

impl<T> Join<Progress<T>> for JoinWorkers {
    ghost use Rattle.claim_crew.specs.Rule.{fresh, joined};
    ghost use Rattle.std.specs.Prelude.{[]};

    ghost both = { joined };

    ghost spent = { fresh [] 0 };
}
