//! Whether a file has just these bytes.
ghost use Rattle.std.specs.Prelude.{◌≡◌, ◌<◌, IsTrue, IfOk, Some, length, option_map};
ghost use Rattle.folder_base.specs.Disk.{content};
ghost use Rattle.folder_base.specs.Story.{IsWhole};
ghost use Rattle.keep_store.specs.Opening.{Looked};
ghost use Rattle.keep_store.specs.Safe.{reads};
ghost use Rattle.folder_steps.specs.Blames.{Blames};
ghost use Rattle.folder_steps.specs.Reading.{has_bytes};

use crate::asking::{read_some, size_of};
use folder_base::{Folder, StoreFault};

/// Whether a file stands and has just these bytes. One of another length is told by its size, and is
/// not read.
pub fn holds<F: Folder>(
    folder: &mut F,
    name: &str,
    bytes: &[u8],
    buffer: &mut [u8],
) -> Result<bool, StoreFault>
    requires whole { IsTrue (F.world folder.old).tells → IsWhole (F.world folder.old) }
    requires room { 0 < length buffer.old }
    ensures looked { Looked (F.world folder.old) (F.world folder.new) }
    ensures blames { Blames (F.world folder.old) (F.world folder.new) result }
    ensures told { IsTrue (F.world folder.new).tells
        → IfOk result
        (λ same. same ≡ has_bytes (reads (F.world folder.old).story.now name.now) bytes.now) }
{
    match size_of(folder, name)? {
        Some(size) if size == bytes.len() as u64 => reads_as(folder, name, bytes, buffer),
        _ => Ok(false),
    }
}

/// Whether a file of this length has these bytes.
fn reads_as<F: Folder>(
    folder: &mut F,
    name: &str,
    bytes: &[u8],
    buffer: &mut [u8],
) -> Result<bool, StoreFault>
    requires whole { IsTrue (F.world folder.old).tells → IsWhole (F.world folder.old) }
    requires room { 0 < length buffer.old }
    requires as_long { IsTrue (F.world folder.old).tells
        → option_map (λ file. length (content file)) ((F.world folder.old).story.now.live name.now)
        ≡ Some (length bytes.now) }
    ensures looked { Looked (F.world folder.old) (F.world folder.new) }
    ensures blames { Blames (F.world folder.old) (F.world folder.new) result }
    ensures told { IsTrue (F.world folder.new).tells
        → IfOk result
        (λ same. same ≡ has_bytes (reads (F.world folder.old).story.now name.now) bytes.now) }
{
    let mut at = 0;
    while at < bytes.len() {
        let piece = read_some(folder, name, at as u64, bytes.len() - at, buffer)?;
        if piece.is_empty() {
            return Ok(false);
        }
        if !bytes[at..].starts_with(piece) {
            return Ok(false);
        }
        at += piece.len();
    }
    Ok(true)
}
