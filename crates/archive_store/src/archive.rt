//! An archive: the lines of a file, and the file to which lines are added.
ghost use Rattle.std.specs.Prelude.{◌≡◌, string_bytes};
ghost use Rattle.archive_store.specs.Adding.{spare_of};

use crate::archive_fault::ArchiveFault;
use crate::growing::write_with;
use crate::reading::{lines_of, put};
use folder_base::Folder;
use folder_steps::read_all;
use std::alloc::Global;
use std::collections::BTreeSet;

/// Which items were fetched before, one line for each, and the name of the file that keeps them.
#[derive(Drop)]
pub struct Archive {
    name: String,
    spare: String,
    lines: BTreeSet<String>,
    pub ghost spare_is: { string_bytes spare ≡ spare_of (string_bytes name) },
}

impl Archive {
    ghost use Rattle.std.specs.Prelude.{IsTrue, IfOk, OnOk, OnErr, Ok, true, false};
    ghost use Rattle.folder_base.specs.Story.{Through, IsWhole};
    ghost use Rattle.keep_store.specs.Opening.{Looked};
    ghost use Rattle.keep_store.specs.Publish.{Stays};
    ghost use Rattle.archive_store.specs.Adding.{bytes_at, IsAdding, IsAdded};
    ghost use Rattle.archive_store.specs.Archive.{name_of, has_line, HasRead, HasAlso, HasSame};
    ghost use Rattle.archive_store.specs.Causes.{BlamesRead, BlamesAdd};
    ghost use Rattle.archive_store.specs.Lines.{is_line};

    /// The archive in this file. One that does not stand has no line.
    pub fn read<F: Folder>(
        alloc: Global,
        folder: &mut F,
        name: &str,
    ) -> Result<Archive, ArchiveFault>
        requires { IsTrue (F.world folder.old).tells → IsWhole (F.world folder.old) }
        ensures looked { Looked (F.world folder.old) (F.world folder.new) }
        ensures blames { BlamesRead name.now (F.world folder.old) (F.world folder.new) result }
        ensures named { IfOk result (λ archive. name_of archive ≡ name.now) }
        ensures told { IsTrue (F.world folder.new).tells
            → IfOk result (HasRead (bytes_at (F.world folder.old).story.now name.now)) }
    {
        let bytes = read_all(alloc, folder, name)?;
        let lines = lines_of(alloc, bytes.as_slice())?;
        let mut spare = String::from_str(alloc, name)?;
        spare.push_str(".new")?;
        Ok(Archive {
            name: String::from_str(alloc, name)?,
            spare,
            lines,
        })
    }

    /// Whether a line is one of the archive's.
    pub fn has(&self, line: &str) -> bool
        ensures { result ≡ has_line self.now line.now }
    {
        self.lines.contains(line)
    }

    /// Adds a line, and writes the file anew with it. Where the line is there nothing is done.
    pub fn add<F: Folder>(
        &mut self,
        alloc: Global,
        folder: &mut F,
        line: &str,
    ) -> Result<(), ArchiveFault>
        requires whole { IsTrue (F.world folder.old).tells → IsWhole (F.world folder.old) }
        requires line { is_line line.now ≡ true }
        ensures kept { Stays (F.world folder.old) (F.world folder.new) }
        ensures blames { BlamesAdd (F.world folder.old) (F.world folder.new) result }
        ensures known { has_line self.old line.now ≡ true
            → (result ≡ Ok tt) × (F.world folder.new ≡ F.world folder.old) }
        ensures moments { IsTrue (F.world folder.new).tells
            → Through (F.world folder.old).story (F.world folder.new).story
            (IsAdding (name_of self.old) line.now (F.world folder.old).story.now) }
        ensures done { has_line self.old line.now ≡ false → IsTrue (F.world folder.new).tells
            → OnOk result
            (IsAdded (name_of self.old) line.now
            (F.world folder.old).story.now (F.world folder.new).story.now) }
        ensures added { OnOk result (HasAlso line.now self.old self.new) }
        ensures same { OnErr result (HasSame self.old self.new) }
        ensures named { name_of self.new ≡ name_of self.old }
    {
        if self.has(line) {
            return Ok(());
        }
        put(alloc, &mut self.lines, line)?;
        let written = write_with(alloc, folder, self.spare.as_str(), self.name.as_str(), line);
        if written.is_err() {
            self.lines.remove(line);
        }
        written
    }
}
