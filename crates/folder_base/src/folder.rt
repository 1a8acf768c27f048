ghost use Rattle.std.specs.Prelude.{◌≡◌, ◌≤◌, ℕ, IsTrue, IsNone, ⊤, IfOk, OnErr, Some, length, take, option_map, map};
ghost use Rattle.folder_base.specs.Disk.{content, created, appended, cut_to, removed, synced, renamed, settled};
ghost use Rattle.folder_base.specs.Names.{Lists, ReadsAt, ReadsFile};
ghost use Rattle.folder_base.specs.Parts.{AreApart};
ghost use Rattle.folder_base.specs.Story.{World, is_own, IsWhole, stands, Asks, Causes, Same, Reads, Does, DoesSome, AreBegun, Fans, Gathers, Collects};

use std::alloc::Global;
use text_base::{Failed, FolderFault, Text};

/// A folder of files, by relative names. Its clauses on content hold where it tells.
///
/// A call answers `Failed` only where the count of faults rose in it. A call on a name that does not
/// stand, and `create` of one that stands, fails and changes nothing. Any other failed call has done
/// its work, has not done it, or, for `append`, has done a part of it. A call that answers
/// `OutOfMemory` has changed nothing; but for `names` and `fan` a count of its own rose then.
pub trait Folder: Sized {
    /// What the folder is and was, and its counts.
    ghost world: { Self → World };

    /// The standing names that begin with `prefix`, in the order of their bytes.
    fn names(&mut self, alloc: Global, prefix: &str) -> Result<Vec<Text>, FolderFault>
        ensures cause { Asks ⊤ (world self.old) (world self.new) result }
        ensures same { Same (world self.old) (world self.new) }
        ensures told { IsTrue (world self.new).tells
            → IfOk result (λ names. Lists prefix.now (world self.old).story.now.live names.items) };

    /// How many bytes a file has; None where the name does not stand.
    fn size(&mut self, name: &str) -> Result<Option<u64>, Failed>
        requires { IsTrue (world self.old).tells → IsTrue (is_own (world self.old) name.now) }
        ensures cause { Reads ⊤ (world self.old) (world self.new) result }
        ensures told { IsTrue (world self.new).tells
            → IfOk result
            (λ size. size ≡ option_map
            (λ file. length (content file)) ((world self.old).story.now.live name.now)) };

    /// Reads a file's bytes from `at` on, and answers how many it placed at the front of `buf`:
    /// 0 for a non-empty `buf` only at or past the end.
    fn read_at(&mut self, name: &str, at: u64, buf: &mut [u8]) -> Result<usize, Failed>
        requires { IsTrue (world self.old).tells → IsTrue (is_own (world self.old) name.now) }
        ensures cause { Reads (stands (world self.old) name.now)
            (world self.old) (world self.new) result }
        ensures fits { IfOk result (λ count. count ≤ length buf.new) }
        ensures told { IsTrue (world self.new).tells
            → IfOk result
            (λ count. ReadsFile ((world self.old).story.now.live name.now) at buf.new count) };

    /// Makes an empty file, and the folders on the way to it.
    fn create(&mut self, name: &str) -> Result<(), FolderFault>
        requires { IsTrue (world self.old).tells → IsTrue (is_own (world self.old) name.now) }
        ensures cause { Causes (IsNone ((world self.old).story.now.live name.now))
            (world self.old) (world self.new) result }
        ensures told { IsTrue (world self.new).tells
            → Does (IsNone ((world self.old).story.now.live name.now)) (created name.now)
            (world self.old).story (world self.new).story result };

    /// Puts bytes behind a file's end.
    fn append(&mut self, name: &str, bytes: &[u8]) -> Result<(), FolderFault>
        requires { IsTrue (world self.old).tells → IsTrue (is_own (world self.old) name.now) }
        ensures cause { Causes (stands (world self.old) name.now)
            (world self.old) (world self.new) result }
        ensures told { IsTrue (world self.new).tells
            → DoesSome (stands (world self.old) name.now)
            (λ count. appended name.now (take count bytes.now)) (length bytes.now)
            (world self.old).story (world self.new).story result };

    /// Shortens a file to `len` bytes. A shorter file stays as it is.
    fn cut(&mut self, name: &str, len: u64) -> Result<(), FolderFault>
        requires { IsTrue (world self.old).tells → IsTrue (is_own (world self.old) name.now) }
        ensures cause { Causes (stands (world self.old) name.now)
            (world self.old) (world self.new) result }
        ensures told { IsTrue (world self.new).tells
            → Does (stands (world self.old) name.now) (cut_to name.now len)
            (world self.old).story (world self.new).story result };

    /// Makes a file's bytes lasting.
    fn sync(&mut self, name: &str) -> Result<(), FolderFault>
        requires { IsTrue (world self.old).tells → IsTrue (is_own (world self.old) name.now) }
        ensures cause { Causes (stands (world self.old) name.now)
            (world self.old) (world self.new) result }
        ensures told { IsTrue (world self.new).tells
            → Does (stands (world self.old) name.now) (synced name.now)
            (world self.old).story (world self.new).story result };

    /// Gives a file another name, in place of a file that has it, and makes the folders on the way.
    fn rename(&mut self, from: &str, to: &str) -> Result<(), FolderFault>
        requires from_own { IsTrue (world self.old).tells
            → IsTrue (is_own (world self.old) from.now) }
        requires to_own { IsTrue (world self.old).tells → IsTrue (is_own (world self.old) to.now) }
        ensures cause { Causes (stands (world self.old) from.now)
            (world self.old) (world self.new) result }
        ensures told { IsTrue (world self.new).tells
            → Does (stands (world self.old) from.now) (renamed from.now to.now)
            (world self.old).story (world self.new).story result };

    /// Removes a file.
    fn remove(&mut self, name: &str) -> Result<(), FolderFault>
        requires { IsTrue (world self.old).tells → IsTrue (is_own (world self.old) name.now) }
        ensures cause { Causes (stands (world self.old) name.now)
            (world self.old) (world self.new) result }
        ensures told { IsTrue (world self.new).tells
            → Does (stands (world self.old) name.now) (removed name.now)
            (world self.old).story (world self.new).story result };

    /// Makes all creations, renames and removals so far lasting.
    fn settle(&mut self) -> Result<(), FolderFault>
        ensures cause { Causes ⊤ (world self.old) (world self.new) result }
        ensures told { IsTrue (world self.new).tells
            → Does ⊤ settled (world self.old).story (world self.new).story result };

    /// Hands out one part for each stem. A part answers for the name `stem` and for all that begin
    /// with `stem.`; until `gather` the folder answers for the other names alone.
    fn fan(&mut self, alloc: Global, stems: &Vec<Text>) -> Result<Vec<Self>, FolderFault>
        requires whole { IsTrue (world self.old).tells → IsWhole (world self.old) }
        requires apart { AreApart stems.now.items }
        ensures cause { Asks ⊤ (world self.old) (world self.new) result }
        ensures refused { OnErr result (Same (world self.old) (world self.new)) }
        ensures begun { IfOk result
            (λ parts. AreBegun stems.now.items (world self.old) (map world parts.items)) }
        ensures told { IsTrue (world self.new).tells
            → IfOk result
            (λ parts. Fans stems.now.items
            (world self.old) (map world parts.items) (world self.new)) };

    /// Takes all parts back, in the order in which `fan` handed them out.
    fn gather(&mut self, parts: Vec<Self>)
        requires { IsTrue (world self.old).tells
            → map (λ part. (world part).part) parts.items ≡ map (λ part. Some part)
            (world self.old).out }
        ensures kept { Collects (map world parts.items) (world self.old) (world self.new) }
        ensures told { IsTrue (world self.new).tells
            → Gathers (map world parts.items) (world self.old) (world self.new) };
}
