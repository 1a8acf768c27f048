// Crews over plain numbers: an item is a number, and a hand counts what it did.
ghost use Rattle.std.specs.Prelude.{◌≡◌, ℕ, ◌+◌, ◌%◌, ◌^◌, nat_lt};

use claim_crew::{Task, claim_all};
use std::sync::atomic::{AtomicU64, Ordering};
use std::test::Fail;

// Adds the item's number to the item, and counts in the hand; an item above 1000 failed.
#[derive(Drop)]
struct Adding;

impl Task<u64, u64> for Adding {
    ghost may = { λ task k x. Unit {0} };

    ghost does = { λ task k x h y g. (y ≡ (x + k) % 2 ^ 64) × (g ≡ (h + 1) % 2 ^ 64) };

    ghost fails = { λ y. nat_lt 1000 y };

    fn work(&self, at: usize, item: &mut u64, hand: &mut u64) -> bool {
        *item = item.wrapping_add(at as u64);
        *hand = hand.wrapping_add(1);
        *item > 1000
    }
}

#[test]
fn three_workers_work_on_each_item_once(rt: HostRuntime) -> Result<(), Fail> {
    let items = vec![in rt.alloc(); 0, 1, 2, 3, 4, 5, 6, 7, 8, 9, 10, 11]?;
    let mut hands = [0, 0, 0];
    let back = claim_all(&rt, rt.alloc(), &Adding, items, &mut hands, 3)
        .ok()
        .ok_or("no memory")?;
    assert_eq!(rt;
        back.as_slice(),
        [0, 2, 4, 6, 8, 10, 12, 14, 16, 18, 20, 22].as_slice()
    );
    assert_eq!(rt; hands[0].wrapping_add(hands[1]).wrapping_add(hands[2]), 12);
    Ok(())
}

#[test]
fn one_worker_stops_at_its_failure(rt: HostRuntime) -> Result<(), Fail> {
    let items = vec![in rt.alloc(); 0, 5000, 7]?;
    let mut hands = [0, 9];
    let back = claim_all(&rt, rt.alloc(), &Adding, items, &mut hands, 1)
        .ok()
        .ok_or("no memory")?;
    assert_eq!(rt; back.as_slice(), [0, 5001, 7].as_slice());
    assert_eq!(rt; hands, [2, 9]);
    Ok(())
}

// How long a worker waits for the other at most, so that each run ends whatever the schedule.
const LONGEST_WAIT: u64 = 400_000_000;

// How many turns more a worker takes once the other has failed, so that the flag is set by then.
const TURNS_AFTER: u64 = 50_000_000;

// The item 0 waits until another item was begun, and fails. Another item waits until the item 0 has failed, and then TURNS_AFTER turns more.
#[derive(Drop)]
struct Waiting {
    begun: AtomicU64,
    failed: AtomicU64,
}

// Looks at the word until it is set, LONGEST_WAIT times at most, and says whether it was.
fn wait_for(word: &AtomicU64) -> bool {
    for _ in 0..LONGEST_WAIT {
        if word.load(Ordering::SeqCst) > 0 {
            return true;
        }
    }
    false
}

// Looks at the word TURNS_AFTER times, and gives the sum of what it saw, so that no turn is left out as useless.
fn look_on(word: &AtomicU64) -> u64 {
    let mut seen = 0u64;
    for _ in 0..TURNS_AFTER {
        seen = seen.wrapping_add(word.load(Ordering::SeqCst));
    }
    seen
}

impl Task<u64, u64> for Waiting {
    ghost may = { λ task k x. Unit {0} };

    ghost does = { λ task k x h y g. Unit {0} };

    ghost fails = { λ y. nat_lt 1000 y };

    fn work(&self, at: usize, item: &mut u64, hand: &mut u64) -> bool {
        if *item > 1000 {
            wait_for(&self.begun);
            self.failed.store(1, Ordering::SeqCst);
            return true;
        }
        self.begun.store(1, Ordering::SeqCst);
        if wait_for(&self.failed) {
            *hand = look_on(&self.failed).saturating_add(2);
        } else {
            *hand = 1;
        }
        *item = 1;
        false
    }
}

// A hand of 1 has waited in vain: the schedule kept the other back, and the run shows nothing.
#[test]
fn who_has_seen_the_flag_draws_no_more(rt: HostRuntime) -> Result<(), Fail> {
    let items = vec![in rt.alloc(); 5000, 0, 0, 0]?;
    let mut hands = [0, 0];
    let task = Waiting {
        begun: AtomicU64::new(0),
        failed: AtomicU64::new(0),
    };
    let back = claim_all(&rt, rt.alloc(), &task, items, &mut hands, 2)
        .ok()
        .ok_or("no memory")?;
    assert!(rt;
        back.as_slice() == [5000, 0, 0, 0].as_slice()
            || back.as_slice() == [5000, 1, 0, 0].as_slice()
            || hands[0] == 1
            || hands[1] == 1
    );
    Ok(())
}
