// The crew: a worker for each hand.
ghost use Rattle.std.specs.Prelude.{◌≡◌, ◌<◌, length};
ghost use denote.Param.Send.{IsSync, IsSend};
ghost use Rattle.claim_crew.specs.FitsCrew.{FitsCrew};
ghost use Rattle.claim_crew.specs.Rule.{IsDone, AreDone, Starts};

use crate::rule::{JoinWorkers, SplitWorker};
use crate::task::Task;
use crate::worker::{SharedTable, WorkerSeat, work};
use std::thread::{Threads, join_mut};

// What all workers share; each has one reference to it.
#[derive(Drop)]
pub(crate) struct Crew<'a, T, H, W: Task<T, H>> {
    pub(crate) table: &'a SharedTable<T, H, W>,
    pub(crate) task: &'a W,
    pub(crate) count: usize,
}

// A worker for each hand, each in a thread of its own where one can be made.
#[cycle(workers)]
pub(crate) fn work_all<R: Threads + Sync, T: Send, H: Send, W: Task<T, H> + Sync>(
    rt: &R,
    crew: &Crew<'_, T, H, W>,
    seat: &mut WorkerSeat<T>,
    hands: &mut [H],
)
    requires crew { FitsCrew crew.now seat.old }
    requires workers { 0 < length hands.old }
    requires starts { Starts (W.may crew.now.task.now) (length hands.old) seat.old.me }
    ensures id { (seat.new.table_id ≡ seat.old.table_id) × (seat.new.id ≡ seat.old.id) }
    ensures done { AreDone (W.does crew.now.task.now) W.fails (length hands.old) seat.new.me hands.old hands.new }
{
    if hands.len() == 1 {
        work(crew.table, seat, crew.task, &mut hands[0], crew.count);
        return;
    }
    let (first, rest) = hands.split_at_mut(1);
    let mut mine = crew.table.split_seat::<SplitWorker>(seat);
    work_both(rt, crew, &mut mine, first, seat, rest);
    crew.table.join_seat::<JoinWorkers>(seat, mine);
}

// The first worker beside the others.
#[cycle(workers)]
fn work_both<R: Threads + Sync, T: Send, H: Send, W: Task<T, H> + Sync>(
    rt: &R,
    crew: &Crew<'_, T, H, W>,
    mine: &mut WorkerSeat<T>,
    first: &mut [H],
    seat: &mut WorkerSeat<T>,
    rest: &mut [H],
)
    requires mine { FitsCrew crew.now mine.old × Starts (W.may crew.now.task.now) 1 mine.old.me × (length first.old ≡ 1) }
    requires seat { FitsCrew crew.now seat.old × Starts (W.may crew.now.task.now) (length rest.old) seat.old.me × (0 < length rest.old) }
    ensures mine_id { mine.new.table_id ≡ mine.old.table_id }
    ensures seat_id { (seat.new.table_id ≡ seat.old.table_id) × (seat.new.id ≡ seat.old.id) }
    ensures first { AreDone (W.does crew.now.task.now) W.fails 1 mine.new.me first.old first.new }
    ensures others { AreDone (W.does crew.now.task.now) W.fails (length rest.old) seat.new.me rest.old rest.new }
{
    join_mut(
        rt,
        &mut ||
            requires { FitsCrew crew.now mine.now × Starts (W.may crew.now.task.now) 1 mine.now.me × (length first.now ≡ 1) }
            ensures { (mine.exit.now.table_id ≡ mine.entry.now.table_id) × AreDone (W.does crew.entry.now.task.now) W.fails 1 mine.exit.now.me first.entry.now first.exit.now }
        { work(crew.table, mine, crew.task, &mut first[0], crew.count) },
        &mut ||
            requires { IsSync R.row × IsSend T.row × IsSend H.row × IsSync W.row × FitsCrew crew.now seat.now × (0 < length rest.now) × Starts (W.may crew.now.task.now) (length rest.now) seat.now.me }
            ensures { (seat.exit.now.table_id ≡ seat.entry.now.table_id) × (seat.exit.now.id ≡ seat.entry.now.id) × AreDone (W.does crew.entry.now.task.now) W.fails (length rest.entry.now) seat.exit.now.me rest.entry.now rest.exit.now }
        { work_all(rt, crew, seat, rest) },
    );
}
