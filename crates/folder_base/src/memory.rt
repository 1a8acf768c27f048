ghost use Rattle.std.specs.Prelude.{◌≡◌, ◌+◌, ◌-◌, ◌^◌, ◌≤◌, min, [], All, map, length, Some, None};
ghost use Rattle.folder_base.specs.Memory.{world_of, CountsNone, GoesOn, Hands};
ghost use Rattle.folder_base.specs.Parts.{AreApart};

use crate::content::Content;
use crate::file::File;
use crate::files::{file_size, read_file};
use crate::folder::Folder;
use crate::listing::list_names;
use crate::memory_parts::{calls_of, have_faults, have_refusals, make_parts, take_parts};
use crate::plan::Plan;
use std::alloc::Global;
use text_base::{Failed, FolderFault, OutOfMemory, Text};

/// A folder in memory, which keeps each step, so that it tells what it was at each moment.
#[derive(Drop)]
pub struct FolderMem {
    pub(crate) alloc: Global,
    /// The number of its first call.
    pub(crate) first: u64,
    /// The number of its next call.
    pub(crate) calls: u64,
    pub(crate) faults: u64,
    pub(crate) refusals: u64,
    pub(crate) content: Content,
}

impl FolderMem {
    ghost use Rattle.std.specs.Prelude.{true, IsTrue, IsFalse, IsErrOf, IfOk, MatchBool, option_map};
    ghost use Rattle.folder_base.specs.Disk.{May, content};
    ghost use Rattle.folder_base.specs.Log.{stood};
    ghost use Rattle.folder_base.specs.Stop.{stopped};
    ghost use Rattle.folder_base.specs.Plan.{plans_none, plans_call};
    ghost use Rattle.text_base.specs.Causes.{Rose};
    ghost use Rattle.folder_base.specs.Memory.{is_steady, plans, number_of, Answers, fresh};

    /// A folder with these files, their bytes lasting, whose calls with the numbers in `fails` and all
    /// from number `stop` on fail. It tells, and goes on telling. Of two files with one name the later
    /// one stands.
    pub fn new(
        alloc: Global,
        files: Vec<File>,
        fails: Vec<u64>,
        stop: Option<u64>,
    ) -> Result<FolderMem, OutOfMemory>
        ensures told { IfOk result
            (λ folder. world_of folder ≡ fresh (plans_none fails.items stop)
            (stood (λ _. None) files.items)) }
        ensures number { IfOk result (λ folder. number_of folder ≡ 0) }
        ensures plan { IfOk result (λ folder. plans folder ≡ plans_call fails.items stop) }
    {
        Ok(FolderMem {
            alloc,
            first: 0,
            calls: 0,
            faults: 0,
            refusals: 0,
            content: Content::new(alloc, files, Plan { fails, stop })?,
        })
    }

    /// The folder that a stop now leaves, where the first `kept` unsettled name changes hold and bytes
    /// that are not lasting are `fill`: each file as long as it reads, and nothing pending. It plans
    /// no fault and no stop.
    pub fn after_stop(&self, alloc: Global, kept: u64, fill: u8) -> Result<FolderMem, OutOfMemory>
        ensures told { IfOk result
            (λ folder. world_of folder ≡ fresh true (stopped kept fill (world_of self.now).story.now)) }
        ensures number { IfOk result (λ folder. number_of folder ≡ 0) }
        ensures plan { IfOk result (λ folder. plans folder ≡ plans_call [] None) }
        ensures may { IfOk result
            (λ folder. May (world_of self.now).story.now
            (λ name. option_map content ((world_of folder).story.now.live name))) }
    {
        let files = self.content.stop(alloc, kept, fill)?;
        FolderMem::new(alloc, files, Vec::new(alloc), None)
    }

    // Counts the call, and answers whether it is to fail.
    fn is_planned(&mut self) -> bool
        ensures same { self.new ≡ record self.old
            { calls = min (self.old.calls + 1) (2 ^ 64 - 1) } }
        ensures planned { result ≡ plans self.old (number_of self.old) }
        ensures none { IsTrue (is_steady self.old) → IsFalse result }
    {
        let planned = self.content.line.log.plan.has(self.calls);
        self.calls = self.calls.saturating_add(1);
        planned
    }

    fn count_fault(&mut self)
        ensures same { self.new ≡ record self.old { faults = self.new.faults } }
        ensures later { self.old.faults ≤ self.new.faults }
        ensures rose { Rose self.old.faults self.new.faults }
    {
        self.faults = self.faults.saturating_add(1);
    }

    fn count_refusal(&mut self)
        ensures same { self.new ≡ record self.old { refusals = self.new.refusals } }
        ensures later { self.old.refusals ≤ self.new.refusals }
        ensures rose { Rose self.old.refusals self.new.refusals }
    {
        self.refusals = self.refusals.saturating_add(1);
    }

    // A folder for each part, whose calls go on from here.
    fn hand_out(&mut self, alloc: Global, stems: &Vec<Text>) -> Result<Vec<FolderMem>, OutOfMemory>
        requires no_part { (world_of self.old).part ≡ None }
        requires none_out { (world_of self.old).out ≡ [] }
        requires apart { AreApart stems.now.items }
        ensures hands { Hands stems.now.items (world_of self.old) (world_of self.new) result }
        ensures counted { CountsNone self.old self.new }
        ensures goes_on { IfOk result (λ parts. All (GoesOn self.new) parts.items) }
    {
        let mut parts = Vec::with_capacity(alloc, stems.len())?;
        let lines = self.content.fan(alloc, stems)?;
        make_parts(alloc, self.calls, lines, &mut parts);
        Ok(parts)
    }

    // Counts what parts that are back have counted.
    fn count_back(&mut self, faulty: bool, refused: bool)
        ensures same { self.new ≡ record self.old
            { faults = self.new.faults; refusals = self.new.refusals } }
        ensures faults { MatchBool faulty (Rose self.old.faults self.new.faults)
            (self.new.faults ≡ self.old.faults) }
        ensures refusals { MatchBool refused (Rose self.old.refusals self.new.refusals)
            (self.new.refusals ≡ self.old.refusals) }
        ensures later { self.old.faults ≤ self.new.faults }
        ensures refused_later { self.old.refusals ≤ self.new.refusals }
    {
        if faulty {
            self.count_fault();
        }
        if refused {
            self.count_refusal();
        }
    }

    // The answer to a call that did its step, could not be done on that name, or wanted memory.
    fn answer(&mut self, done: Result<bool, OutOfMemory>) -> Result<(), FolderFault>
        ensures same { self.new ≡ record self.old
            { faults = self.new.faults; refusals = self.new.refusals } }
        ensures counts { Answers done result self.old.faults self.new.faults self.old.refusals
            self.new.refusals }
        ensures calm { (IsErrOf result FolderFault.Failed → ⊥)
            → self.new.faults ≡ self.old.faults }
        ensures fed { (IsErrOf result FolderFault.OutOfMemory → ⊥)
            → self.new.refusals ≡ self.old.refusals }
    {
        match done {
            Ok(true) => Ok(()),
            Ok(false) => {
                self.count_fault();
                Err(FolderFault::Failed)
            }
            Err(_) => {
                self.count_refusal();
                Err(FolderFault::OutOfMemory)
            }
        }
    }
}

impl Folder for FolderMem {
    ghost use Rattle.std.specs.Prelude.{IsTrue, IsNone, IsErr, ⊤, IfOk, OnErr, take, option_map};
    ghost use Rattle.folder_base.specs.Disk.{content, created, appended, cut_to, removed, synced, renamed, settled};
    ghost use Rattle.folder_base.specs.Memory.{Counts, CountsBack, FailedSo};
    ghost use Rattle.folder_base.specs.Names.{Lists, ReadsFile};
    ghost use Rattle.folder_base.specs.Story.{is_own, IsWhole, stands, Asks, Causes, Same, Reads, Does, DoesSome, AreBegun, Fans, Collects, Gathers};

    ghost world = { world_of };

    fn names(&mut self, alloc: Global, prefix: &str) -> Result<Vec<Text>, FolderFault>
        ensures cause { Asks ⊤ (world_of self.old) (world_of self.new) result }
        ensures same { Same (world_of self.old) (world_of self.new) }
        ensures told { IsTrue (world_of self.new).tells
            → IfOk result (λ names. Lists prefix.now (world_of self.old).story.now.live names.items) }
        ensures planned { Counts ⊤ (FailedSo result)
            self.old self.new }
    {
        if self.is_planned() {
            self.count_fault();
            return Err(FolderFault::Failed);
        }
        if self.content.merge(alloc).is_err() {
            return Err(FolderFault::OutOfMemory);
        }
        match list_names(alloc, &self.content.line.files, prefix) {
            Ok(names) => Ok(names),
            Err(_) => Err(FolderFault::OutOfMemory),
        }
    }

    fn size(&mut self, name: &str) -> Result<Option<u64>, Failed>
        requires { IsTrue (world_of self.old).tells → IsTrue (is_own (world_of self.old) name.now) }
        ensures cause { Reads ⊤ (world_of self.old) (world_of self.new) result }
        ensures told { IsTrue (world_of self.new).tells
            → IfOk result
            (λ size. size ≡ option_map
            (λ file. length (content file)) ((world_of self.old).story.now.live name.now)) }
        ensures planned { Counts ⊤ (IsErr result)
            self.old self.new }
    {
        if self.is_planned() {
            self.count_fault();
            return Err(Failed);
        }
        Ok(file_size(self.content.files_for(name), name))
    }

    fn read_at(&mut self, name: &str, at: u64, buf: &mut [u8]) -> Result<usize, Failed>
        requires { IsTrue (world_of self.old).tells → IsTrue (is_own (world_of self.old) name.now) }
        ensures cause { Reads (stands (world_of self.old) name.now)
            (world_of self.old) (world_of self.new) result }
        ensures fits { IfOk result (λ count. count ≤ length buf.new) }
        ensures told { IsTrue (world_of self.new).tells
            → IfOk result
            (λ count. ReadsFile ((world_of self.old).story.now.live name.now) at buf.new count) }
        ensures planned { Counts (stands (world_of self.old) name.now) (IsErr result)
            self.old self.new }
    {
        if self.is_planned() {
            self.count_fault();
            return Err(Failed);
        }
        match read_file(self.content.files_for(name), name, at, buf) {
            Some(count) => Ok(count),
            None => {
                self.count_fault();
                Err(Failed)
            }
        }
    }

    fn create(&mut self, name: &str) -> Result<(), FolderFault>
        requires { IsTrue (world_of self.old).tells → IsTrue (is_own (world_of self.old) name.now) }
        ensures cause { Causes (IsNone ((world_of self.old).story.now.live name.now))
            (world_of self.old) (world_of self.new) result }
        ensures told { IsTrue (world_of self.new).tells
            → Does (IsNone ((world_of self.old).story.now.live name.now)) (created name.now)
            (world_of self.old).story (world_of self.new).story result }
        ensures planned { Counts (IsNone ((world_of self.old).story.now.live name.now)) (FailedSo result)
            self.old self.new }
    {
        if self.is_planned() {
            self.count_fault();
            return Err(FolderFault::Failed);
        }
        let done = self.content.create(self.alloc, name);
        self.answer(done)
    }

    fn append(&mut self, name: &str, bytes: &[u8]) -> Result<(), FolderFault>
        requires { IsTrue (world_of self.old).tells → IsTrue (is_own (world_of self.old) name.now) }
        ensures cause { Causes (stands (world_of self.old) name.now)
            (world_of self.old) (world_of self.new) result }
        ensures told { IsTrue (world_of self.new).tells
            → DoesSome (stands (world_of self.old) name.now)
            (λ count. appended name.now (take count bytes.now)) (length bytes.now)
            (world_of self.old).story (world_of self.new).story result }
        ensures planned { Counts (stands (world_of self.old) name.now) (FailedSo result)
            self.old self.new }
    {
        if self.is_planned() {
            self.count_fault();
            return Err(FolderFault::Failed);
        }
        let done = self.content.append(self.alloc, name, bytes);
        self.answer(done)
    }

    fn cut(&mut self, name: &str, len: u64) -> Result<(), FolderFault>
        requires { IsTrue (world_of self.old).tells → IsTrue (is_own (world_of self.old) name.now) }
        ensures cause { Causes (stands (world_of self.old) name.now)
            (world_of self.old) (world_of self.new) result }
        ensures told { IsTrue (world_of self.new).tells
            → Does (stands (world_of self.old) name.now) (cut_to name.now len)
            (world_of self.old).story (world_of self.new).story result }
        ensures planned { Counts (stands (world_of self.old) name.now) (FailedSo result)
            self.old self.new }
    {
        if self.is_planned() {
            self.count_fault();
            return Err(FolderFault::Failed);
        }
        let done = self.content.cut(self.alloc, name, len);
        self.answer(done)
    }

    fn sync(&mut self, name: &str) -> Result<(), FolderFault>
        requires { IsTrue (world_of self.old).tells → IsTrue (is_own (world_of self.old) name.now) }
        ensures cause { Causes (stands (world_of self.old) name.now)
            (world_of self.old) (world_of self.new) result }
        ensures told { IsTrue (world_of self.new).tells
            → Does (stands (world_of self.old) name.now) (synced name.now)
            (world_of self.old).story (world_of self.new).story result }
        ensures planned { Counts (stands (world_of self.old) name.now) (FailedSo result)
            self.old self.new }
    {
        if self.is_planned() {
            self.count_fault();
            return Err(FolderFault::Failed);
        }
        let done = self.content.sync(self.alloc, name);
        self.answer(done)
    }

    fn rename(&mut self, from: &str, to: &str) -> Result<(), FolderFault>
        requires from_own { IsTrue (world_of self.old).tells
            → IsTrue (is_own (world_of self.old) from.now) }
        requires to_own { IsTrue (world_of self.old).tells → IsTrue (is_own (world_of self.old) to.now) }
        ensures cause { Causes (stands (world_of self.old) from.now)
            (world_of self.old) (world_of self.new) result }
        ensures told { IsTrue (world_of self.new).tells
            → Does (stands (world_of self.old) from.now) (renamed from.now to.now)
            (world_of self.old).story (world_of self.new).story result }
        ensures planned { Counts (stands (world_of self.old) from.now) (FailedSo result)
            self.old self.new }
    {
        if self.is_planned() {
            self.count_fault();
            return Err(FolderFault::Failed);
        }
        let done = self.content.rename(self.alloc, from, to);
        self.answer(done)
    }

    fn remove(&mut self, name: &str) -> Result<(), FolderFault>
        requires { IsTrue (world_of self.old).tells → IsTrue (is_own (world_of self.old) name.now) }
        ensures cause { Causes (stands (world_of self.old) name.now)
            (world_of self.old) (world_of self.new) result }
        ensures told { IsTrue (world_of self.new).tells
            → Does (stands (world_of self.old) name.now) (removed name.now)
            (world_of self.old).story (world_of self.new).story result }
        ensures planned { Counts (stands (world_of self.old) name.now) (FailedSo result)
            self.old self.new }
    {
        if self.is_planned() {
            self.count_fault();
            return Err(FolderFault::Failed);
        }
        let done = self.content.remove(self.alloc, name);
        self.answer(done)
    }

    fn settle(&mut self) -> Result<(), FolderFault>
        ensures cause { Causes ⊤ (world_of self.old) (world_of self.new) result }
        ensures told { IsTrue (world_of self.new).tells
            → Does ⊤ settled (world_of self.old).story (world_of self.new).story result }
        ensures planned { Counts ⊤ (FailedSo result)
            self.old self.new }
    {
        if self.is_planned() {
            self.count_fault();
            return Err(FolderFault::Failed);
        }
        let done = self.content.settle(self.alloc);
        self.answer(done)
    }

    fn fan(&mut self, alloc: Global, stems: &Vec<Text>) -> Result<Vec<FolderMem>, FolderFault>
        requires whole { IsTrue (world_of self.old).tells → IsWhole (world_of self.old) }
        requires apart { AreApart stems.now.items }
        ensures cause { Asks ⊤ (world_of self.old) (world_of self.new) result }
        ensures refused { OnErr result (Same (world_of self.old) (world_of self.new)) }
        ensures begun { IfOk result
            (λ parts. AreBegun stems.now.items (world_of self.old) (map world_of parts.items)) }
        ensures told { IsTrue (world_of self.new).tells
            → IfOk result
            (λ parts. Fans stems.now.items
            (world_of self.old) (map world_of parts.items) (world_of self.new)) }
        ensures goes_on { IfOk result (λ parts. All (GoesOn self.new) parts.items) }
        ensures planned { Counts ⊤ (FailedSo result)
            self.old self.new }
    {
        if self.is_planned() {
            self.count_fault();
            return Err(FolderFault::Failed);
        }
        match self.hand_out(alloc, stems) {
            Ok(parts) => Ok(parts),
            Err(_) => Err(FolderFault::OutOfMemory),
        }
    }

    fn gather(&mut self, parts: Vec<FolderMem>)
        requires { IsTrue (world_of self.old).tells
            → map (λ part. (world_of part).part) parts.items ≡ map (λ part. Some part)
            (world_of self.old).out }
        ensures kept { Collects (map world_of parts.items) (world_of self.old)
            (world_of self.new) }
        ensures told { IsTrue (world_of self.new).tells
            → Gathers (map world_of parts.items) (world_of self.old) (world_of self.new) }
        ensures counted { CountsBack parts.items self.old self.new }
    {
        let faulty = have_faults(&parts);
        let refused = have_refusals(&parts);
        self.calls = self
            .calls
            .saturating_add(calls_of(&parts))
            .saturating_add(1);
        take_parts(&mut self.content, parts);
        self.count_back(faulty, refused);
    }
}
