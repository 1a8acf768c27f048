//! Copies a file behind the end of another.
ghost use Rattle.std.specs.Prelude.{◌≡◌, ◌++◌, ◌<◌, ℕ, List, IsTrue, OnOk, Some, false, bytes_eq, length};
ghost use Rattle.folder_base.specs.Disk.{Disk, File, content};
ghost use Rattle.folder_base.specs.Story.{IsWhole, stands};
ghost use Rattle.keep_store.specs.Publish.{Stays};
ghost use Rattle.folder_steps.specs.Blames.{Blames};
ghost use Rattle.folder_steps.specs.Make.{HasNew, KeepsLoose};

use crate::asking::{read_some, size_of};
use crate::making::put_behind;
use folder_base::{Folder, StoreFault};

/// Puts a file's bytes behind the end of another file, through the buffer.
pub fn pour<F: Folder>(
    folder: &mut F,
    from: &str,
    to: &str,
    buffer: &mut [u8],
) -> Result<(), StoreFault>
    requires whole { IsTrue (F.world folder.old).tells → IsWhole (F.world folder.old) }
    requires from_stands { IsTrue (F.world folder.old).tells
        → stands (F.world folder.old) from.now }
    requires to_stands { IsTrue (F.world folder.old).tells → stands (F.world folder.old) to.now }
    requires apart { bytes_eq to.now from.now ≡ false }
    requires room { 0 < length buffer.old }
    ensures kept { Stays (F.world folder.old) (F.world folder.new) }
    ensures blames { Blames (F.world folder.old) (F.world folder.new) result }
    ensures stands { IsTrue (F.world folder.new).tells → stands (F.world folder.new) to.now }
    ensures others { IsTrue (F.world folder.new).tells
        → (other : List ℕ) → bytes_eq to.now other ≡ false
        → (F.world folder.new).story.now.live other ≡ (F.world folder.old).story.now.live other }
    ensures loose { IsTrue (F.world folder.new).tells
        → KeepsLoose to.now (F.world folder.old).story (F.world folder.new).story }
    ensures poured { IsTrue (F.world folder.new).tells
        → (start : Disk) (before : List ℕ) (file : File)
        → HasNew to.now before start (F.world folder.old).story.now
        → (F.world folder.old).story.now.live from.now ≡ Some file
        → OnOk result
        (HasNew to.now (before ++ content file) start (F.world folder.new).story.now) }
{
    // Of a file that does not stand the first read is refused.
    let asked = size_of(folder, from)?;
    let size = asked.unwrap_or(u64::MAX);
    let mut at = 0;
    while at < size {
        let piece = read_some(folder, from, at, (size - at) as usize, buffer)?;
        if piece.is_empty() {
            return Ok(());
        }
        put_behind(folder, to, piece)?;
        at += piece.len() as u64;
    }
    Ok(())
}
