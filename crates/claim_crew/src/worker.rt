// One worker: how it draws a number, works on the item, and puts it back.
ghost use Rattle.std.specs.Prelude.{◌≡◌, ◌<◌, [], ◌∷◌, length, true};
ghost use mathlib.Core.Option.{none};
ghost use Rattle.atomic_table.specs.Table.{step};
ghost use Rattle.claim_crew.specs.Rule.{Drew, Looked, Stopped, Holds, Worked, Processed, IsDone, Starts};

use crate::rule::{CounterRule, DrawNumber, LoadFlag, Progress, SetFlag, TableKey};
use crate::task::Task;
use atomic_table::{Seat, Shared};

// The part of the table that all workers share.
pub(crate) type SharedTable<T, H, W> = Shared<T, Progress<T>, TableKey<T>, CounterRule<T, H, W>>;

// The seat with which a worker steps.
pub(crate) type WorkerSeat<T> = Seat<T, Progress<T>>;

// Draws the next number, and claims the item of that number in the same step, where there is one.
fn draw<T, H, W: Task<T, H>>(table: &SharedTable<T, H, W>, seat: &mut WorkerSeat<T>) -> u64
    requires id { (seat.old.table_id ≡ table.now.table_id) × (table.now.table_id.words ≡ 2) }
    requires slots { length table.now.key.items.value.items ≡ table.now.table_id.slots }
    requires free { (seat.old.me.0.claimed ≡ []) × (seat.old.me.0.misses < seat.old.me.0.workers) }
    ensures id { (seat.new.table_id ≡ seat.old.table_id) × (seat.new.id ≡ seat.old.id) }
    ensures drew { Drew (step table.now.table_id.slots 0 1 0 none) seat.old.me result seat.new.me }
{
    table.fetch_add::<DrawNumber>(seat, 0, 1)
}

// Works on the item that is claimed, and says whether it failed.
fn work_at<T, H, W: Task<T, H>>(
    table: &SharedTable<T, H, W>,
    seat: &mut WorkerSeat<T>,
    at: usize,
    task: &W,
    hand: &mut H,
) -> bool
    requires id { seat.old.table_id ≡ table.now.table_id }
    requires held { (x : _) × Holds at seat.old.me x x × W.may task.now at x }
    ensures id { (seat.new.table_id ≡ seat.old.table_id) × (seat.new.id ≡ seat.old.id) }
    ensures worked { Worked (W.does task.now) W.fails at seat.old.me seat.new.me hand.old hand.new result }
{
    let item = seat.slot_mut(table, at);
    task.work(at, item, hand)
}

// Puts the item back, and loads the flag in the same step.
fn put_back<T, H, W: Task<T, H>>(
    table: &SharedTable<T, H, W>,
    seat: &mut WorkerSeat<T>,
    at: usize,
) -> u64
    requires id { (seat.old.table_id ≡ table.now.table_id) × (table.now.table_id.words ≡ 2) }
    requires held { (x : _) × (y : _) × Holds at seat.old.me x y }
    ensures id { (seat.new.table_id ≡ seat.old.table_id) × (seat.new.id ≡ seat.old.id) }
    ensures looked { Looked (step table.now.table_id.slots 1 0 0 none) seat.old.me result seat.new.me }
{
    table.load::<LoadFlag>(seat, 1)
}

// Puts an item that failed back, and sets the flag in the same step.
fn put_back_failed<T, H, W: Task<T, H>>(
    table: &SharedTable<T, H, W>,
    seat: &mut WorkerSeat<T>,
    at: usize,
)
    requires id { (seat.old.table_id ≡ table.now.table_id) × (table.now.table_id.words ≡ 2) }
    requires held { (x : _) × (y : _) × Holds at seat.old.me x y × (W.fails y ≡ true) }
    ensures id { (seat.new.table_id ≡ seat.old.table_id) × (seat.new.id ≡ seat.old.id) }
    ensures stopped { Stopped (step table.now.table_id.slots 1 1 0 none) seat.old.me 0 seat.new.me }
{
    table.fetch_or::<SetFlag>(seat, 1, 1);
}

// Loads the flag, with no item to put back.
fn load_flag<T, H, W: Task<T, H>>(table: &SharedTable<T, H, W>, seat: &mut WorkerSeat<T>) -> u64
    requires id { (seat.old.table_id ≡ table.now.table_id) × (table.now.table_id.words ≡ 2) }
    requires none { seat.old.me.1 ≡ [] }
    ensures id { (seat.new.table_id ≡ seat.old.table_id) × (seat.new.id ≡ seat.old.id) }
    ensures looked { Looked (step table.now.table_id.slots 1 0 0 none) seat.old.me result seat.new.me }
{
    table.load::<LoadFlag>(seat, 1)
}

// Works on the item that is claimed and puts it back, and says whether the worker is to draw no more.
fn process<T, H, W: Task<T, H>>(
    table: &SharedTable<T, H, W>,
    seat: &mut WorkerSeat<T>,
    at: usize,
    task: &W,
    hand: &mut H,
) -> bool
    requires id { (seat.old.table_id ≡ table.now.table_id) × (table.now.table_id.words ≡ 2) }
    requires held { (x : _) × Holds at seat.old.me x x × W.may task.now at x }
    ensures id { (seat.new.table_id ≡ seat.old.table_id) × (seat.new.id ≡ seat.old.id) }
    ensures processed { Processed (W.does task.now) W.fails at seat.old.me seat.new.me hand.old hand.new result }
{
    if work_at(table, seat, at, task, hand) {
        put_back_failed(table, seat, at);
        return true;
    }
    put_back(table, seat, at) > 0
}

// One worker: it draws numbers until none is left, an item of its own has failed, or it sees the flag.
pub(crate) fn work<T, H, W: Task<T, H>>(
    table: &SharedTable<T, H, W>,
    seat: &mut WorkerSeat<T>,
    task: &W,
    hand: &mut H,
    count: usize,
)
    requires id { (seat.old.table_id ≡ table.now.table_id) × (table.now.table_id.words ≡ 2) }
    requires slots { (length table.now.key.items.value.items ≡ table.now.table_id.slots) × (count ≡ table.now.table_id.slots) }
    requires starts { Starts (W.may task.now) 1 seat.old.me }
    ensures id { (seat.new.table_id ≡ seat.old.table_id) × (seat.new.id ≡ seat.old.id) }
    ensures done { IsDone (W.does task.now) W.fails 1 seat.new.me hand.old hand.new }
{
    if load_flag(table, seat) > 0 {
        return;
    }
    let mut next = 0;
    loop {
        let number = draw(table, seat);
        if number >= count as u64 {
            return;
        }
        let at = number as usize;
        if process(table, seat, at, task, hand) {
            return;
        }
        next = at + 1;
    }
}
