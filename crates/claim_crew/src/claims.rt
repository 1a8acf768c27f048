// The call: a table is made of the items, the crew works over it, and the items are moved out again.
ghost use Rattle.std.specs.Prelude.{ℕ, ◌≡◌, ◌<◌, ◌≤◌, ◌+◌, ◌^◌, [], ◌∷◌, length, take, drop, vec_len, vec_capacity, IfOk, IfErr, OnErr, false, Some};
ghost use Rattle.std.specs.List.{slice_get};
ghost use Rattle.claim_crew.specs.Closing.{AreFull};
ghost use Rattle.claim_crew.specs.Rule.{Starts};
ghost use Rattle.claim_crew.specs.Claimed.{Claimed};

use crate::crew::{Crew, work_all};
use crate::rule::{CounterRule, Progress, TableKey};
use crate::task::Task;
use atomic_table::{Closed, Refused, Seat, Table};
use std::alloc::Global;
use std::snapshot::Snapshot;
use std::thread::Threads;

// The table, with its memory.
type OwnedTable<T, H, W> = Table<T, Progress<T>, TableKey<T>, CounterRule<T, H, W>, Global>;

// Moves the items of a closed table out, in order.
fn collect<T>(mut closed: Closed<T, Global>, out: &mut Vec<T>)
    requires full { AreFull closed.slots.filled 0 closed.slots.len }
    requires empty { out.old.items ≡ [] }
    requires room { closed.slots.len ≤ vec_capacity out.old }
    ensures { out.new.items ≡ closed.slots.items }
{
    let count = closed.slot_count();
    let mut at = 0;
    while at < count {
        out.push_reserved(closed.take(at));
        at += 1;
    }
    closed.free();
}

// Runs the workers over a table, and moves its items out.
fn run<R: Threads + Sync, T: Send, H: Send, W: Task<T, H> + Sync>(
    rt: &R,
    table: OwnedTable<T, H, W>,
    mut seat: Seat<T, Progress<T>>,
    out: &mut Vec<T>,
    task: &W,
    hands: &mut [H],
    count: usize,
)
    requires id { (seat.table_id ≡ table.shared.table_id) × (table.shared.table_id.words ≡ 2) }
    requires slots { (length table.shared.key.items.value.items ≡ table.shared.table_id.slots) × (count ≡ table.shared.table_id.slots) }
    requires workers { (0 < length hands.old) × (table.shared.key.workers ≡ length hands.old) }
    requires starts { Starts (W.may task.now) (length hands.old) seat.me }
    requires empty { out.old.items ≡ [] }
    requires room { table.shared.table_id.slots ≤ vec_capacity out.old }
    ensures { Claimed (W.does task.now) W.fails table.shared.key.items.value.items out.new.items hands.old hands.new }
{
    let crew = Crew {
        table: &table.shared,
        task,
        count,
    };
    work_all(rt, &crew, &mut seat, hands);
    collect(table.close_with(seat), out);
}

/// Works on the items with the first `workers` hands, each in a thread of its own where one can be made (one less than `workers` are
/// started; the caller's thread is a worker too). The workers draw the items' numbers from one counter; the first failure stops it.
///
/// `Ok` has every item at its own place, and `Err`, for want of memory, the items as they were.
pub fn claim_all<R: Threads + Sync, T: Send, H: Send, W: Task<T, H> + Sync>(
    rt: &R,
    alloc: Global,
    task: &W,
    items: Vec<T>,
    hands: &mut [H],
    workers: usize,
) -> Result<Vec<T>, Vec<T>>
    requires workers { (0 < workers) × (workers ≤ length hands.old) }
    requires may { (k : ℕ) (x : T) → slice_get items.items k ≡ Some x → W.may task.now k x }
    requires few { length items.items + workers < 2 ^ 64 }
    ensures refused { IfErr result (λ back. back.items ≡ items.items) }
    ensures kept { OnErr result (hands.new ≡ hands.old) }
    ensures done { IfOk result (λ back. Claimed (W.does task.now) W.fails items.items back.items (take workers hands.old) (take workers hands.new)) }
    ensures idle { drop workers hands.new ≡ drop workers hands.old }
{
    let count = items.len();
    let Ok(mut out) = Vec::with_capacity(alloc, count) else {
        return Err(items);
    };
    let key = TableKey {
        items: Snapshot::of(&items),
        workers,
    };
    match Table::new(alloc, &[0, 0], items, &key) {
        Ok((table, seat)) => {
            let (used, _) = hands.split_at_mut(workers);
            run(rt, table, seat, &mut out, task, used, count);
            Ok(out)
        }
        Err(Refused { slots }) => {
            out.destroy_empty();
            Err(slots)
        }
    }
}
