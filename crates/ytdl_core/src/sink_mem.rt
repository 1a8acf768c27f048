ghost use Rattle.std.specs.Prelude.{◌≡◌, ◌≢◌, ◌++◌, Some, None, [], true, ⊤, IfOk, IsErrOf, OnOk, OnErr};
ghost use Rattle.ytdl_core.specs.Memory.{written_bytes, sink_faults, sink_refusals, sink_plan, is_steady_sink};
ghost use Rattle.ytdl_core.specs.Outside.{HasCauses};
ghost use Rattle.text_base.specs.CallPlan.{Plans, Counts};

use crate::sink::Sink;
use std::alloc::Global;
use text_base::{CallPlan, FaultCount, FolderFault, OutOfMemory};

/// A sink in memory. Each call that was planned to fail fails.
#[derive(Drop)]
pub struct SinkMem {
    bytes: Vec<u8>,
    plan: CallPlan,
    faults: FaultCount,
    refusals: FaultCount,
}

impl SinkMem {
    /// An empty sink. Its calls are numbered from 0, and `fails` lists those that fail.
    pub fn new(alloc: Global, fails: Vec<u64>) -> Result<SinkMem, OutOfMemory>
        ensures empty { IfOk result (λ sink. written_bytes sink ≡ []) }
        ensures plan { IfOk result (λ sink. Plans (sink_plan sink) fails.items None) }
        ensures faults { IfOk result (λ sink. sink_faults sink ≡ 0) }
        ensures refusals { IfOk result (λ sink. sink_refusals sink ≡ 0) }
    {
        Ok(SinkMem {
            bytes: Vec::new(alloc),
            plan: CallPlan::new(fails, None),
            faults: FaultCount::new(),
            refusals: FaultCount::new(),
        })
    }

    /// The bytes that it took.
    pub fn bytes(&self) -> &[u8]
        ensures { result.now ≡ written_bytes self.now }
    {
        &self.bytes
    }
}

impl Sink for SinkMem {
    ghost written = { λ s. Some (written_bytes s) };

    ghost faults = { sink_faults };

    ghost refusals = { sink_refusals };

    ghost is_steady = { is_steady_sink };

    fn put(&mut self, bytes: &[u8]) -> Result<(), FolderFault>
        ensures whole { OnOk result (written_bytes self.new ≡ written_bytes self.old ++ bytes.now) }
        ensures nothing { OnErr result (written_bytes self.new ≡ written_bytes self.old) }
        ensures planned { Counts ⊤ (IsErrOf result FolderFault.Failed)
            (sink_plan self.old) (sink_plan self.new) }
        ensures steady { is_steady_sink self.old ≡ true → result ≢ Err FolderFault.Failed }
        ensures causes { HasCauses (sink_faults self.old) (sink_faults self.new)
            (sink_refusals self.old) (sink_refusals self.new) result }
    {
        if self.plan.fails_now() {
            self.faults.rise();
            return Err(FolderFault::Failed);
        }
        if self.bytes.extend_from_slice(bytes).is_err() {
            self.refusals.rise();
            return Err(FolderFault::OutOfMemory);
        }
        Ok(())
    }
}
