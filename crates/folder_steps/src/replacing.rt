//! Puts a new file in a name's place, so that a crash leaves what stood there or all of the new bytes.
ghost use Rattle.std.specs.Prelude.{◌≡◌, ℕ, List, IsTrue, OnOk, None, bytes_eq};
ghost use Rattle.folder_base.specs.Disk.{Disk};
ghost use Rattle.folder_base.specs.Story.{Story, Through, IsWhole, stands};
ghost use Rattle.keep_store.specs.Publish.{Stays};
ghost use Rattle.folder_steps.specs.Blames.{Blames};
ghost use Rattle.folder_steps.specs.Follow.{Follows, Beside};
ghost use Rattle.folder_steps.specs.Make.{HasNew, Publishes, IsReplacing, IsReplaced};

use crate::making::{make, put_behind};
use folder_base::{Folder, StoreFault};
use keep_store::publish;

/// Publishes a new file that was written under a spare name.
pub fn publish_new<F: Folder>(folder: &mut F, spare: &str, to: &str) -> Result<(), StoreFault>
    requires whole { IsTrue (F.world folder.old).tells → IsWhole (F.world folder.old) }
    requires stands { IsTrue (F.world folder.old).tells → stands (F.world folder.old) spare.now }
    ensures kept { Stays (F.world folder.old) (F.world folder.new) }
    ensures blames { Blames (F.world folder.old) (F.world folder.new) result }
    ensures moments { IsTrue (F.world folder.new).tells
        → Publishes spare.now to.now (F.world folder.old).story (F.world folder.new).story }
    ensures done { IsTrue (F.world folder.new).tells
        → (start : Disk) (bytes : List ℕ)
        → HasNew spare.now bytes start (F.world folder.old).story.now
        → OnOk result (IsReplaced spare.now to.now bytes start (F.world folder.new).story.now) }
{
    publish(folder, spare, to)
}

/// Puts these bytes in a name's place, by way of a spare name that is free.
pub fn replace<F: Folder>(
    folder: &mut F,
    spare: &str,
    to: &str,
    bytes: &[u8],
) -> Result<(), StoreFault>
    requires whole { IsTrue (F.world folder.old).tells → IsWhole (F.world folder.old) }
    requires free { IsTrue (F.world folder.old).tells
        → (F.world folder.old).story.now.live spare.now ≡ None }
    ensures kept { Stays (F.world folder.old) (F.world folder.new) }
    ensures blames { Blames (F.world folder.old) (F.world folder.new) result }
    ensures done { IsTrue (F.world folder.new).tells
        → OnOk result
        (IsReplaced spare.now to.now bytes.now
        (F.world folder.old).story.now (F.world folder.new).story.now) }
    ensures moments { IsTrue (F.world folder.new).tells
        → Through (F.world folder.old).story (F.world folder.new).story
        (IsReplacing spare.now to.now bytes.now (F.world folder.old).story.now) }
{
    make(folder, spare)?;
    put_behind(folder, spare, bytes)?;
    publish_new(folder, spare, to)
}
