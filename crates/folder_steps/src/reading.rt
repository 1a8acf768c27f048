//! Reads a file whole.
ghost use Rattle.std.specs.Prelude.{◌≡◌, ◌≤◌, [], IsTrue, IfOk, length, unwrap_or};
ghost use Rattle.folder_base.specs.Story.{IsWhole, stands};
ghost use Rattle.keep_store.specs.Opening.{Looked};
ghost use Rattle.keep_store.specs.Safe.{reads};
ghost use Rattle.folder_steps.specs.Blames.{Blames, BlamesMemory};
ghost use Rattle.folder_steps.specs.Reading.{FrontIsRead};

use crate::asking::size_of;
use folder_base::{Folder, FolderCall, StoreFault};
use std::alloc::Global;

/// Reads a file's first bytes, as many as there is room for, and answers how many they are.
fn read_front<F: Folder>(folder: &mut F, name: &str, bytes: &mut [u8]) -> Result<usize, StoreFault>
    requires whole { IsTrue (F.world folder.old).tells → IsWhole (F.world folder.old) }
    requires stands { IsTrue (F.world folder.old).tells → stands (F.world folder.old) name.now }
    ensures looked { Looked (F.world folder.old) (F.world folder.new) }
    ensures blames { Blames (F.world folder.old) (F.world folder.new) result }
    ensures told { IsTrue (F.world folder.new).tells
        → IfOk result
        (FrontIsRead ((F.world folder.old).story.now.live name.now) bytes.new) }
{
    let mut at = 0;
    while at < bytes.len() {
        match folder.read_at(name, at as u64, &mut bytes[at..]) {
            Ok(0) => return Ok(at),
            Ok(count) => at += count,
            Err(_) => {
                return Err(StoreFault::Folder {
                    call: FolderCall::ReadAt,
                });
            }
        }
    }
    Ok(at)
}

/// All bytes of a file; none where the name does not stand.
pub fn read_all<F: Folder>(alloc: Global, folder: &mut F, name: &str) -> Result<Vec<u8>, StoreFault>
    requires { IsTrue (F.world folder.old).tells → IsWhole (F.world folder.old) }
    ensures looked { Looked (F.world folder.old) (F.world folder.new) }
    ensures blames { BlamesMemory (F.world folder.old) (F.world folder.new) result }
    ensures told { IsTrue (F.world folder.new).tells
        → IfOk result
        (λ bytes. bytes.items ≡ unwrap_or (reads (F.world folder.old).story.now name.now) []) }
{
    let Some(size) = size_of(folder, name)? else {
        return Ok(Vec::new(alloc));
    };
    let Ok(mut bytes) = vec![in alloc; 0; size as usize] else {
        return Err(StoreFault::OutOfMemory);
    };
    let count = read_front(folder, name, bytes.as_mut_slice())?;
    bytes.truncate(count);
    Ok(bytes)
}
