//! What a folder is asked for.
ghost use Rattle.std.specs.Prelude.{◌≡◌, ◌≤◌, ◌<◌, IsTrue, IfOk, is_some, length, option_map};
ghost use Rattle.folder_base.specs.Disk.{content};
ghost use Rattle.folder_base.specs.Story.{IsWhole, stands};
ghost use Rattle.keep_store.specs.Opening.{Looked};
ghost use Rattle.folder_steps.specs.Blames.{Blames};
ghost use Rattle.folder_steps.specs.Reading.{StandsIn};

use folder_base::{Folder, FolderCall, StoreFault};

/// How many bytes a file has; None where the name does not stand.
pub fn size_of<F: Folder>(folder: &mut F, name: &str) -> Result<Option<u64>, StoreFault>
    requires { IsTrue (F.world folder.old).tells → IsWhole (F.world folder.old) }
    ensures looked { Looked (F.world folder.old) (F.world folder.new) }
    ensures blames { Blames (F.world folder.old) (F.world folder.new) result }
    ensures told { IsTrue (F.world folder.new).tells
        → IfOk result
        (λ size. size ≡ option_map
        (λ file. length (content file)) ((F.world folder.old).story.now.live name.now)) }
{
    match folder.size(name) {
        Ok(size) => Ok(size),
        Err(_) => Err(StoreFault::Folder {
            call: FolderCall::Size,
        }),
    }
}

/// Whether a name stands.
pub fn is_there<F: Folder>(folder: &mut F, name: &str) -> Result<bool, StoreFault>
    requires { IsTrue (F.world folder.old).tells → IsWhole (F.world folder.old) }
    ensures looked { Looked (F.world folder.old) (F.world folder.new) }
    ensures blames { Blames (F.world folder.old) (F.world folder.new) result }
    ensures told { IsTrue (F.world folder.new).tells
        → IfOk result
        (λ there. there ≡ is_some ((F.world folder.old).story.now.live name.now)) }
{
    match size_of(folder, name)? {
        Some(_) => Ok(true),
        None => Ok(false),
    }
}

/// At most `most` bytes of a file from `at` on, and as many as go into the buffer; none only at or
/// past the file's end.
pub(crate) fn read_some<'a, F: Folder>(
    folder: &mut F,
    name: &str,
    at: u64,
    most: usize,
    buffer: &'a mut [u8],
) -> Result<&'a [u8], StoreFault>
    requires whole { IsTrue (F.world folder.old).tells → IsWhole (F.world folder.old) }
    requires stands { IsTrue (F.world folder.old).tells → stands (F.world folder.old) name.now }
    requires some { 0 < most }
    requires room { 0 < length buffer.old }
    ensures looked { Looked (F.world folder.old) (F.world folder.new) }
    ensures blames { Blames (F.world folder.old) (F.world folder.new) result }
    ensures short { IfOk result (λ piece. length piece.now ≤ most) }
    ensures told { IsTrue (F.world folder.new).tells
        → IfOk result
        (λ piece. StandsIn ((F.world folder.old).story.now.live name.now) at piece.now) }
{
    let room = buffer.len().min(most);
    match folder.read_at(name, at, &mut buffer[..room]) {
        Ok(count) => Ok(&buffer[..count]),
        Err(_) => Err(StoreFault::Folder {
            call: FolderCall::ReadAt,
        }),
    }
}
