ghost use Rattle.std.specs.Prelude.{◌≡◌, ◌≤◌, length, None, Some, true, false, IfOk};
ghost use Rattle.text_base.specs.CallPlan.{Plans};

use crate::source::InfoSource;
use std::alloc::Global;
use text_base::{CallPlan, Failed, FaultCount, OutOfMemory, Text};

/// A file in memory. Opening another name fails, and so does each call that was planned to.
#[derive(Drop)]
pub struct InfoMem {
    name: Text,
    bytes: Vec<u8>,
    at: usize,
    is_open: bool,
    plan: CallPlan,
    faults: FaultCount,
    ghost inside: { at ≤ length bytes.items },
}

impl InfoMem {
    ghost use Rattle.ytdl_core.specs.Memory.{held_file, is_source_open, source_faults, source_plan};

    /// A file that was not opened. Its calls are numbered from 0, and `fails` lists those that fail.
    pub fn new(
        alloc: Global,
        name: &str,
        bytes: Vec<u8>,
        fails: Vec<u64>,
    ) -> Result<InfoMem, OutOfMemory>
        ensures file { IfOk result (λ source.
            held_file source ≡ record { name = name.now; bytes = bytes.items }) }
        ensures closed { IfOk result (λ source. is_source_open source ≡ false) }
        ensures plan { IfOk result (λ source. Plans (source_plan source) fails.items None) }
        ensures faults { IfOk result (λ source. source_faults source ≡ 0) }
    {
        Ok(InfoMem {
            name: Text::new(alloc, name)?,
            bytes,
            at: 0,
            is_open: false,
            plan: CallPlan::new(fails, None),
            faults: FaultCount::new(),
        })
    }
}

impl InfoSource for InfoMem {
    ghost use Rattle.std.specs.Prelude.{◌≢◌, ◌++◌, ⊤, IsErr, IsOk, OnOk, OnErr, MatchResult, take};
    ghost use Rattle.std.specs.Io.{ReadsAtMost};
    ghost use Rattle.std.specs.Io.KnownBytes.{ReadConsumes};
    ghost use Rattle.text_base.specs.Causes.{HasCause};
    ghost use Rattle.ytdl_core.specs.Memory.{held_file, bytes_left, is_source_open, source_faults, source_plan, is_steady_source};
    ghost use Rattle.text_base.specs.CallPlan.{Counts};

    ghost file = { λ s. Some (held_file s) };

    ghost left = { λ s. Some (bytes_left s) };

    ghost is_open = { is_source_open };

    ghost faults = { source_faults };

    ghost is_steady = { is_steady_source };

    fn open(&mut self, name: &str) -> Result<(), Failed>
        requires { is_source_open self.old ≡ false }
        ensures name { OnOk result ((held_file self.old).name ≡ name.now) }
        ensures open { MatchResult result (λ _. is_source_open self.new ≡ true)
            (λ _. is_source_open self.new ≡ false) }
        ensures left { MatchResult result (λ _. bytes_left self.new ≡ (held_file self.old).bytes)
            (λ _. bytes_left self.new ≡ bytes_left self.old) }
        ensures file { held_file self.new ≡ held_file self.old }
        ensures planned { Counts ((held_file self.old).name ≡ name.now) (IsErr result)
            (source_plan self.old) (source_plan self.new) }
        ensures steady { is_steady_source self.old ≡ true → OnErr result
            ((held_file self.old).name ≢ name.now) }
        ensures cause { HasCause (source_faults self.old) (source_faults self.new) result }
    {
        if self.plan.fails_now() || self.name.as_str() != name {
            self.faults.rise();
            return Err(Failed);
        }
        self.is_open = true;
        self.at = 0;
        Ok(())
    }

    fn read(&mut self, buf: &mut [u8]) -> Result<usize, Failed>
        requires { is_source_open self.old ≡ true }
        ensures bound { ReadsAtMost result buf.new }
        ensures bytes { ReadConsumes (Some (bytes_left self.old)) (Some (bytes_left self.new)) result buf.new }
        ensures open { is_source_open self.new ≡ true }
        ensures file { held_file self.new ≡ held_file self.old }
        ensures planned { Counts ⊤ (IsErr result) (source_plan self.old) (source_plan self.new) }
        ensures steady { is_steady_source self.old ≡ true → IsOk result }
        ensures cause { HasCause (source_faults self.old) (source_faults self.new) result }
    {
        if self.plan.fails_now() {
            self.faults.rise();
            return Err(Failed);
        }
        let left = &self.bytes[self.at..];
        let count = left.len().min(buf.len());
        buf[..count].copy_from_slice(&left[..count]);
        self.at += count;
        Ok(count)
    }
}
