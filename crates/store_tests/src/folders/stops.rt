ghost use Rattle.std.specs.Prelude.{◌≡◌, [], ◌∷◌, IfOk, OnOk};
ghost use Rattle.folder_base.specs.Memory.{world_of};
ghost use Rattle.folder_base.specs.Story.{IsWhole};

use crate::folders::{empty, listed};
use folder_base::{Folder, FolderMem};
use std::alloc::Global;
use std::test::Fail;
use text_base::{Failed, FolderFault, Text};

// A file of these bytes, synced.
fn written(folder: &mut FolderMem, name: &str, bytes: &[u8]) -> Result<(), FolderFault>
    requires { IsWhole (world_of folder.old) }
    ensures { OnOk result (IsWhole (world_of folder.new)) }
{
    folder.create(name)?;
    folder.append(name, bytes)?;
    folder.sync(name)
}

// A file grows, and takes the place of a second one.
fn replacing(folder: &mut FolderMem) -> Result<(), FolderFault>
    requires { IsWhole (world_of folder.old) }
{
    folder.append("a", b" more")?;
    folder.create("b")?;
    folder.rename("a", "b")
}

// A file is written under another name, published, and put in the place of a second one.
fn publish_twice(folder: &mut FolderMem) -> Result<(), FolderFault>
    requires { IsWhole (world_of folder.old) }
{
    written(folder, "a.new", b"whole")?;
    folder.rename("a.new", "a")?;
    folder.settle()?;
    replacing(folder)
}

fn after_stop_at(alloc: Global, stop: u64, kept: u64) -> Result<FolderMem, Fail>
    ensures { IfOk result (λ folder. IsWhole (world_of folder)) }
{
    let mut folder = FolderMem::new(alloc, Vec::new(alloc), Vec::new(alloc), Some(stop))?;
    let _ = publish_twice(&mut folder);
    Ok(folder.after_stop(alloc, kept, b'.')?)
}

#[test]
fn a_stop_keeps_the_first_name_changes_and_the_synced_bytes(rt: HostRuntime) -> Result<(), Fail> {
    let alloc = rt.alloc();
    for (stop, kept, wanted) in [
        (0, 9, ""),
        (1, 0, ""),
        (1, 1, "a.new= "),
        (2, 0, ""),
        (2, 1, "a.new=..... "),
        (3, 0, ""),
        (3, 1, "a.new=whole "),
        (4, 0, ""),
        (4, 1, "a.new=whole "),
        (4, 2, "a=whole "),
        (5, 0, "a=whole "),
        (6, 0, "a=whole..... "),
        (7, 0, "a=whole..... "),
        (7, 1, "a=whole..... b= "),
        (8, 0, "a=whole..... "),
        (8, 1, "a=whole..... b= "),
        (8, 2, "b=whole..... "),
    ] {
        let mut folder = after_stop_at(alloc, stop, kept)?;
        assert_eq!(rt;
            listed(alloc, &mut folder)?.as_str(),
            wanted,
            "stop {stop}, kept {kept}"
        );
    }
    Ok(())
}

fn two_stems(alloc: Global, first: &str, second: &str) -> Result<Vec<Text>, Fail>
    ensures { IfOk result (λ stems. stems.items ≡ first.now ∷ second.now ∷ []) }
{
    let mut stems = Vec::new(alloc);
    stems.push(Text::new(alloc, first)?)?;
    stems.push(Text::new(alloc, second)?)?;
    Ok(stems)
}

fn two_parts(parts: Vec<FolderMem>) -> Result<(FolderMem, FolderMem), Fail>
    ensures { IfOk result (λ pair. parts.items ≡ pair.0 ∷ pair.1 ∷ []) }
{
    let mut parts = parts.into_iter();
    match (parts.next(), parts.next(), parts.next()) {
        (Some(first), Some(second), None) => Ok((first, second)),
        _ => Err(Failed)?,
    }
}

// Name changes are unsettled as parts are handed out: one file of the folder went to a part, and one of
// the part went out and came back.
fn renamed_across(folder: &mut FolderMem) -> Result<(), FolderFault>
    requires { IsWhole (world_of folder.old) }
    ensures { OnOk result (IsWhole (world_of folder.new)) }
{
    folder.rename("a", "v")?;
    folder.rename("v.a", "b")?;
    folder.rename("b", "v.b")
}

// Two files that stand, and their names changed.
fn written_and_renamed(folder: &mut FolderMem) -> Result<(), FolderFault>
    requires { IsWhole (world_of folder.old) }
    ensures { OnOk result (IsWhole (world_of folder.new)) }
{
    written(folder, "a", b"1")?;
    written(folder, "v.a", b"2")?;
    folder.settle()?;
    renamed_across(folder)
}

fn changed_across(alloc: Global) -> Result<FolderMem, Fail>
    ensures { IfOk result (λ folder. IsWhole (world_of folder)) }
{
    let mut folder = empty(alloc)?;
    written_and_renamed(&mut folder)?;
    let stems = two_stems(alloc, "u", "v")?;
    let (mut u, mut v) = two_parts(folder.fan(alloc, &stems)?)?;
    v.append("v", b"+")?;
    v.append("v.b", b"+")?;
    v.rename("v.b", "v.c")?;
    folder.create("w")?;
    u.create("u")?;
    folder.gather(vec![in alloc; u, v]?);
    Ok(folder)
}

#[test]
fn a_stop_takes_changes_of_parts_last_and_files_that_left_one_as_they_were(
    rt: HostRuntime,
) -> Result<(), Fail> {
    let alloc = rt.alloc();
    let folder = changed_across(alloc)?;
    for (kept, wanted) in [
        (0, "a=1 v.a=2. "),
        (1, "v.a=2. "),
        (2, "b=2 v.a=2. "),
        (3, "v.a=2. "),
        (4, "v.a=2. w= "),
        (5, "u= v.a=2. w= "),
        (6, "u= v=1. v.a=2. w= "),
        (7, "u= v=1. w= "),
        (8, "u= v=1. v.b=2. w= "),
        (9, "u= v=1. v.c=2. w= "),
    ] {
        let mut left = folder.after_stop(alloc, kept, b'.')?;
        assert_eq!(rt; listed(alloc, &mut left)?.as_str(), wanted, "kept {kept}");
    }
    Ok(())
}
