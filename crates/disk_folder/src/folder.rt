ghost use Rattle.std.specs.Prelude.{◌≡◌, ◌<◌, ◌≤◌, All, IsTrue, IfOk, Ok, IsErrOf, MatchBool, OnErr, Some, ⊤, length, map, nat_lt};
ghost use Rattle.std.specs.List.{list_any};
ghost use Rattle.text_base.specs.Causes.{HasCause, Rose};
ghost use Rattle.folder_base.specs.Parts.{AreApart};
ghost use Rattle.folder_base.specs.Story.{IsWhole, Asks, Same, AreBegun, Fans, Collects, Gathers};
ghost use Rattle.disk_folder.specs.Silent.{silent, world_of};

use crate::disk::Disk;
use folder_base::Folder;
use std::alloc::{AllocError, Global};
use std::fs::Files;
use std::io::{self, ErrorKind};
use text_base::{Failed, FaultCount, FolderFault, Text};

/// The current folder, on the disk. It tells nothing but its count of faults; want of memory is
/// answered by `names` and `fan` alone.
#[derive(Drop)]
pub struct DiskFolder<'a, R: Files> {
    disk: Disk<'a, R>,
    faults: FaultCount,
    /// What parts that are back have left, until their names are taken in. `fan` makes a place for
    /// each part.
    back: Vec<Disk<'a, R>>,
}

impl<'a, R: Files> DiskFolder<'a, R> {
    /// The current folder; nothing is asked of it yet.
    pub fn new(files: &'a R, alloc: Global) -> Self
        ensures { world_of result ≡ silent 0 }
    {
        DiskFolder::of(Disk::new(files, alloc), alloc)
    }

    fn of(disk: Disk<'a, R>, alloc: Global) -> Self
        ensures { world_of result ≡ silent 0 }
    {
        DiskFolder {
            disk,
            faults: FaultCount::new(),
            back: Vec::new(alloc),
        }
    }

    /// How often it failed.
    pub fn faults(&self) -> u64
        ensures { result ≡ (world_of self.now).faults }
    {
        self.faults.count()
    }

    /// Closes what is open, before a child starts.
    pub fn let_go(&mut self)
        ensures { world_of self.new ≡ world_of self.old }
    {
        self.disk.close();
    }

    /// A child is to run that may make this name: the next `settle` makes that lasting.
    pub fn note_change(&mut self, name: &str) -> Result<(), AllocError>
        ensures { world_of self.new ≡ world_of self.old }
    {
        self.disk.note_change(name)
    }

    /// A child has run that may have made this name, or taken it away.
    pub fn ask_again(&mut self, name: &str)
        ensures { world_of self.new ≡ world_of self.old }
    {
        self.merge_parts();
        self.disk.ask_again(name);
    }

    /// A child has run that may have made or taken away any name.
    pub fn forget_names(&mut self)
        ensures { world_of self.new ≡ world_of self.old }
    {
        self.disk.forget_names();
    }

    /// Takes the names of the parts that are back.
    fn take_parts(&mut self) -> io::Result<()>
        ensures { world_of self.new ≡ world_of self.old }
    {
        take_all(&mut self.disk, &self.back)?;
        self.back.clear();
        Ok(())
    }

    /// Takes the names of the parts that are back, before one of the names changes. Without memory
    /// for them no names are known.
    fn merge_parts(&mut self)
        ensures { world_of self.new ≡ world_of self.old }
    {
        if self.take_parts().is_err() {
            self.disk.forget_names();
        }
    }

    /// Makes the changes of names in each folder lasting, each once; those of parts that are back too.
    fn sync_folders(&mut self) -> io::Result<()>
        ensures { world_of self.new ≡ world_of self.old }
    {
        self.disk.close();
        self.disk.sync_folders(None)?;
        for part in &self.back {
            part.sync_folders(Some(&self.disk))?;
        }
        Ok(())
    }

    /// All changes of names so far are lasting.
    fn all_settled(&mut self)
        ensures { world_of self.new ≡ world_of self.old }
    {
        self.disk.all_settled();
        settle_all(&mut self.back);
    }

    /// The answer of a call that takes no memory.
    fn answer<T: Drop>(&mut self, done: io::Result<T>) -> Result<T, Failed>
        ensures counts { HasCause self.old.faults.count self.new.faults.count result }
        ensures value { IfOk result (λ value. done ≡ Ok value) }
    {
        match done {
            Ok(value) => Ok(value),
            Err(_) => {
                self.faults.rise();
                Err(Failed)
            }
        }
    }

    /// The answer of a call that changes something.
    fn answer_change(&mut self, done: io::Result<()>) -> Result<(), FolderFault>
        ensures counts { HasCause self.old.faults.count self.new.faults.count result }
        ensures fed { IsErrOf result FolderFault.OutOfMemory → ⊥ }
    {
        match done {
            Ok(()) => Ok(()),
            Err(_) => {
                self.faults.rise();
                Err(FolderFault::Failed)
            }
        }
    }

    /// The answer to a call for names, which may be want of memory.
    fn answer_names(&mut self, done: io::Result<Vec<Text>>) -> Result<Vec<Text>, FolderFault>
        ensures later { self.old.faults.count ≤ self.new.faults.count }
        ensures rose { IsErrOf result FolderFault.Failed → Rose self.old.faults.count self.new.faults.count }
        ensures calm { (IsErrOf result FolderFault.Failed → ⊥) → self.new.faults.count ≡ self.old.faults.count }
        ensures value { IfOk result (λ value. done ≡ Ok value) }
    {
        match done {
            Ok(value) => Ok(value),
            Err(refused) if refused.kind() == ErrorKind::OutOfMemory => Err(
                FolderFault::OutOfMemory,
            ),
            Err(_) => {
                self.faults.rise();
                Err(FolderFault::Failed)
            }
        }
    }

    /// Counts a fault where a part that is back has counted one.
    fn count_back(&mut self, faulty: bool)
        ensures later { self.old.faults.count ≤ self.new.faults.count }
        ensures rose { MatchBool faulty (Rose self.old.faults.count self.new.faults.count)
            (self.new.faults.count ≡ self.old.faults.count) }
    {
        if faulty {
            self.faults.rise();
        }
    }

    /// The names that begin with `prefix`, those of parts that are back among them.
    fn list(&mut self, alloc: Global, prefix: &str) -> io::Result<Vec<Text>>
        ensures { world_of self.new ≡ world_of self.old }
    {
        self.take_parts()?;
        self.disk.names(alloc, prefix)
    }

    /// A folder for each part.
    fn hand_out(&mut self, alloc: Global, stems: &Vec<Text>) -> io::Result<Vec<DiskFolder<'a, R>>>
        ensures same { world_of self.new ≡ world_of self.old }
        ensures one_each { IfOk result (λ parts. length parts.items ≡ length stems.now.items) }
        ensures begun { IfOk result (λ parts. All (λ part. world_of part ≡ silent 0) parts.items) }
    {
        self.take_parts()?;
        self.back = Vec::with_capacity(alloc, stems.len())?;
        let mut parts = Vec::with_capacity(alloc, stems.len())?;
        for disk in self.disk.fan(alloc, stems)? {
            parts.push(DiskFolder::of(disk, alloc))?;
        }
        Ok(parts)
    }
}

/// Takes the names of parts, and what may not be lasting in them.
fn take_all<'a, R: Files>(disk: &mut Disk<'a, R>, parts: &Vec<Disk<'a, R>>) -> io::Result<()> {
    for part in parts {
        disk.take_back(part)?;
    }
    Ok(())
}

/// All changes of names in parts are lasting.
fn settle_all<R: Files>(parts: &mut Vec<Disk<'_, R>>) {
    for part in parts {
        part.all_settled();
    }
}

/// Puts what parts have left into the places that were made for them, and closes their files.
fn put_back<'a, R: Files>(back: &mut Vec<Disk<'a, R>>, parts: Vec<DiskFolder<'a, R>>) {
    for part in parts {
        let mut disk = part.disk;
        disk.close();
        let _ = back.push(disk);
    }
}

/// Whether some part counts a fault.
fn have_faults<R: Files>(parts: &Vec<DiskFolder<'_, R>>) -> bool
    ensures { result ≡ list_any (λ part. nat_lt 0 part.faults.count) parts.now.items }
{
    parts.iter().any(|part| part.faults.count() > 0)
}

impl<'a, R: Files> Folder for DiskFolder<'a, R> {
    ghost world = { world_of };

    fn names(&mut self, alloc: Global, prefix: &str) -> Result<Vec<Text>, FolderFault> {
        let done = self.list(alloc, prefix);
        self.answer_names(done)
    }

    fn size(&mut self, name: &str) -> Result<Option<u64>, Failed> {
        let done = self.disk.size(name);
        self.answer(done)
    }

    fn read_at(&mut self, name: &str, at: u64, buf: &mut [u8]) -> Result<usize, Failed> {
        let done = self.disk.read_at(name, at, buf);
        self.answer(done)
    }

    fn create(&mut self, name: &str) -> Result<(), FolderFault> {
        self.merge_parts();
        let done = self.disk.create(name);
        self.answer_change(done)
    }

    fn append(&mut self, name: &str, bytes: &[u8]) -> Result<(), FolderFault> {
        let done = self.disk.append(name, bytes);
        self.answer_change(done)
    }

    fn cut(&mut self, name: &str, len: u64) -> Result<(), FolderFault> {
        let done = self.disk.cut(name, len);
        self.answer_change(done)
    }

    fn sync(&mut self, name: &str) -> Result<(), FolderFault> {
        let done = self.disk.sync(name);
        self.answer_change(done)
    }

    fn rename(&mut self, from: &str, to: &str) -> Result<(), FolderFault> {
        self.merge_parts();
        let done = self.disk.rename(from, to);
        self.answer_change(done)
    }

    fn remove(&mut self, name: &str) -> Result<(), FolderFault> {
        self.merge_parts();
        let done = self.disk.remove(name);
        self.answer_change(done)
    }

    fn settle(&mut self) -> Result<(), FolderFault> {
        let done = self.sync_folders();
        if done.is_ok() {
            self.all_settled();
        }
        self.answer_change(done)
    }

    fn fan(
        &mut self,
        alloc: Global,
        stems: &Vec<Text>,
    ) -> Result<Vec<DiskFolder<'a, R>>, FolderFault>
        requires whole { IsTrue (world_of self.old).tells → IsWhole (world_of self.old) }
        requires apart { AreApart stems.now.items }
        ensures cause { Asks ⊤ (world_of self.old) (world_of self.new) result }
        ensures refused { OnErr result (Same (world_of self.old) (world_of self.new)) }
        ensures begun { IfOk result
            (λ parts. AreBegun stems.now.items (world_of self.old) (map world_of parts.items)) }
        ensures told { IsTrue (world_of self.new).tells
            → IfOk result
            (λ parts. Fans stems.now.items
            (world_of self.old) (map world_of parts.items) (world_of self.new)) }
    {
        match self.hand_out(alloc, stems) {
            Ok(parts) => Ok(parts),
            Err(fault) if fault.kind() == ErrorKind::OutOfMemory => Err(FolderFault::OutOfMemory),
            Err(_) => {
                self.faults.rise();
                Err(FolderFault::Failed)
            }
        }
    }

    fn gather(&mut self, parts: Vec<DiskFolder<'a, R>>)
        requires { IsTrue (world_of self.old).tells
            → map (λ part. (world_of part).part) parts.items ≡ map (λ part. Some part)
            (world_of self.old).out }
        ensures kept { Collects (map world_of parts.entry.items) (world_of self.old) (world_of self.new) }
        ensures told { IsTrue (world_of self.new).tells
            → Gathers (map world_of parts.entry.items) (world_of self.old) (world_of self.new) }
    {
        let faulty = have_faults(&parts);
        self.count_back(faulty);
        self.disk.parts_are_back();
        put_back(&mut self.back, parts);
    }
}
