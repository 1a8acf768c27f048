ghost use Rattle.std.specs.Prelude.{◌≡◌, ◌+◌, ◌-◌, ◌^◌, ◌≤◌, min};
ghost use Rattle.text_base.specs.Causes.{Rose};

/// How often an object failed, or how often it wanted memory. The count never falls.
#[derive(Clone, Copy, Debug)]
pub struct FaultCount {
    count: u64,
}

impl FaultCount {
    pub fn new() -> FaultCount
        ensures { result.count ≡ 0 }
    {
        FaultCount { count: 0 }
    }

    pub fn count(self) -> u64
        ensures { result ≡ self.count }
    {
        self.count
    }

    /// Counts one more; at its type's end the count stays.
    pub fn rise(&mut self)
        ensures one { self.new ≡ record self.old { count = min (self.old.count + 1) (2 ^ 64 - 1) } }
        ensures later { self.old.count ≤ self.new.count }
        ensures rose { Rose self.old.count self.new.count }
    {
        self.count = self.count.saturating_add(1);
    }
}
