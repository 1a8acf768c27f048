//! Which calls of an object in memory fail, for tests of what stands on it.

ghost use Rattle.std.specs.Prelude.{◌≡◌};
ghost use Rattle.text_base.specs.CallPlan.{plans, plans_call, plans_none, plans_nothing};

/// The calls that fail, by their numbers from 0 on: those that are listed, and all from a stop on.
#[derive(Drop)]
pub struct FaultPlan {
    fails: Vec<u64>,
    stop: Option<u64>,
}

impl FaultPlan {
    ghost use Rattle.std.specs.Prelude.{IsTrue, IsFalse};

    pub fn new(fails: Vec<u64>, stop: Option<u64>) -> FaultPlan
        ensures plan { plans result ≡ plans_call fails.items stop }
        ensures none { plans_nothing result ≡ plans_none fails.items stop }
    {
        FaultPlan { fails, stop }
    }

    /// Whether the call of this number fails.
    pub fn fails_at(&self, call: u64) -> bool
        ensures planned { result ≡ plans self.now call }
        ensures none { IsTrue (plans_nothing self.now) → IsFalse result }
    {
        self.stop.is_some_and(|stop| stop <= call) || self.fails.contains(&call)
    }
}

/// A plan of faults, and the number of the call that comes next.
#[derive(Drop)]
pub struct CallPlan {
    plan: FaultPlan,
    next: u64,
}

impl CallPlan {
    ghost use Rattle.std.specs.Prelude.{◌+◌, ◌-◌, ◌^◌, ◌↔◌, min, IsTrue, IsFalse};
    ghost use Rattle.text_base.specs.CallPlan.{Plans, FailsNext, never_fails};

    /// No call came yet.
    pub fn new(fails: Vec<u64>, stop: Option<u64>) -> CallPlan
        ensures { Plans result fails.items stop }
    {
        CallPlan {
            plan: FaultPlan::new(fails, stop),
            next: 0,
        }
    }

    /// Counts one call, and says whether it fails.
    pub fn fails_now(&mut self) -> bool
        ensures planned { IsTrue result ↔ FailsNext self.old }
        ensures next { self.new ≡ record self.old { next = min (self.old.next + 1) (2 ^ 64 - 1) } }
        ensures never { IsTrue (never_fails self.old) → IsFalse result }
    {
        let number = self.next;
        self.next = self.next.saturating_add(1);
        self.plan.fails_at(number)
    }
}
