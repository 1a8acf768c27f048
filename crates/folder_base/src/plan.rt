ghost use Rattle.std.specs.Prelude.{◌≡◌, IsTrue, IsFalse};
ghost use Rattle.folder_base.specs.Plan.{plans_nothing, plans_call};

/// Which calls of a folder in memory are to fail, by their numbers from 0 on.
#[derive(Drop)]
pub(crate) struct Plan {
    pub(crate) fails: Vec<u64>,
    /// All calls from this one on fail.
    pub(crate) stop: Option<u64>,
}

impl Plan {
    /// Whether this call is to fail.
    pub(crate) fn has(&self, call: u64) -> bool
        ensures planned { result ≡ plans_call self.now.fails.items self.now.stop call }
        ensures none { IsTrue (plans_nothing self.now) → IsFalse result }
    {
        self.stop.is_some_and(|stop| stop <= call) || self.fails.contains(&call)
    }
}
