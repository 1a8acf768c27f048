//! Each call of the folder on real files.
ghost use Rattle.std.specs.Prelude.{IfOk};
ghost use Rattle.folder_base.specs.Parts.{AreApart};

use crate::counting::Counting;
use disk_folder::DiskFolder;
use folder_base::Folder;
use std::alloc::Global;
use std::fs;
use std::os::unix::fs::symlink;
use std::test::Fail;
use text_base::{Failed, FolderFault, Text};

const REFUSED: Result<(), FolderFault> = Err(FolderFault::Failed);

#[test]
fn a_file_is_made_grown_cut_and_renamed(rt: HostRuntime) -> Result<(), Fail> {
    let mut folder = DiskFolder::new(&rt, rt.alloc());
    let mut bytes = [0u8; 16];
    assert_eq!(rt; folder.create("deep/down/a.part"), Ok(()));
    assert_eq!(rt; folder.append("deep/down/a.part", b"hello "), Ok(()));
    assert_eq!(rt; folder.append("deep/down/a.part", b"world!"), Ok(()));
    assert_eq!(rt; folder.cut("deep/down/a.part", 11), Ok(()));
    assert_eq!(rt; folder.cut("deep/down/a.part", 12), Ok(()));
    assert_eq!(rt; folder.sync("deep/down/a.part"), Ok(()));
    assert_eq!(rt; folder.rename("deep/down/a.part", "there/a"), Ok(()));
    assert_eq!(rt; folder.settle(), Ok(()));
    assert_eq!(rt; folder.read_at("there/a", 6, &mut bytes), Ok(5));
    assert_eq!(rt; folder.read_at("there/a", 11, &mut bytes), Ok(0));
    assert_eq!(rt; &bytes[..5], b"world".as_slice());
    assert_eq!(rt; folder.size("deep/down/a.part"), Ok(None));
    assert_eq!(rt; folder.remove("there/a"), Ok(()));
    assert_eq!(rt; folder.size("there/a"), Ok(None));
    assert_eq!(rt; folder.faults(), 0);
    Ok(())
}

#[test]
fn no_call_writes_through_a_link(rt: HostRuntime) -> Result<(), Fail> {
    fs::write(&rt, "target", "kept")?;
    symlink(&rt, "target", "link")?;
    symlink(&rt, "nowhere", "dangling")?;
    let mut folder = DiskFolder::new(&rt, rt.alloc());
    assert_eq!(rt; folder.size("link"), Ok(Some(4)));
    assert_eq!(rt; folder.append("link", b"more"), REFUSED);
    assert_eq!(rt; folder.cut("link", 1), REFUSED);
    assert_eq!(rt; folder.sync("link"), REFUSED);
    assert_eq!(rt; folder.create("link"), REFUSED);
    assert_eq!(rt; folder.rename("link", "other"), REFUSED);
    assert_eq!(rt; folder.create("dangling"), REFUSED);
    assert_eq!(rt; folder.size("dangling"), Err(Failed));
    assert_eq!(rt; folder.faults(), 7);
    assert_eq!(rt; folder.create("new"), Ok(()));
    assert_eq!(rt; folder.rename("new", "link"), Ok(()));
    assert_eq!(rt; folder.size("link"), Ok(Some(0)));
    assert_eq!(rt; folder.size("target"), Ok(Some(4)));
    assert_eq!(rt; folder.size("nowhere"), Ok(None));
    Ok(())
}

#[test]
fn what_is_no_file_is_a_fault(rt: HostRuntime) -> Result<(), Fail> {
    fs::create_dir(&rt, "t.mp4")?;
    symlink(&rt, "t.mp4", "to_folder")?;
    symlink(&rt, "/proc/self", "locked")?;
    let mut folder = DiskFolder::new(&rt, rt.alloc());
    assert_eq!(rt; folder.create("plain"), Ok(()));
    assert_eq!(rt; folder.create("plain/no/folder"), REFUSED);
    // A folder that was not made leaves nothing to settle.
    assert_eq!(rt; folder.settle(), Ok(()));
    assert_eq!(rt; folder.size("t.mp4"), Err(Failed));
    assert_eq!(rt; folder.rename("plain", "t.mp4"), REFUSED);
    assert_eq!(rt; folder.rename("plain", "to_folder"), REFUSED);
    assert_eq!(rt; folder.remove("t.mp4"), REFUSED);
    assert_eq!(rt; folder.create("locked/a"), REFUSED);
    assert_eq!(rt; folder.append("missing", b"x"), REFUSED);
    assert_eq!(rt; folder.remove("missing"), REFUSED);
    assert_eq!(rt; folder.faults(), 8);
    // A folder on the way may be a link.
    assert_eq!(rt; folder.create("to_folder/b"), Ok(()));
    assert_eq!(rt; folder.size("t.mp4/b"), Ok(Some(0)));
    Ok(())
}

#[test]
fn no_name_leaves_the_folder(rt: HostRuntime) -> Result<(), Fail> {
    let names = ["", "/tmp/x", "../x", "a/../x", "a//x", "./x", "a/", "a\0x"];
    let mut folder = DiskFolder::new(&rt, rt.alloc());
    let standing = folder.names(rt.alloc(), "")?.len();
    for name in names {
        assert_eq!(rt; folder.create(name), REFUSED);
    }
    assert_eq!(rt; folder.faults(), 8);
    assert_eq!(rt; folder.names(rt.alloc(), "")?.len(), standing);
    assert!(rt; folder.names(rt.alloc(), "../").is_err());
    Ok(())
}

/// The stems of so many pieces.
fn stems(alloc: Global, count: u64) -> Result<Vec<Text>, Fail>
    ensures { IfOk result (λ stems. AreApart stems.items) }
{
    let mut stems = Vec::new(alloc);
    for number in 0..count {
        stems.push(Text::from(format!(in alloc; "v.part-Frag{number}")?))?;
    }
    Ok(stems)
}

#[test]
fn twenty_thousand_parts_list_once(rt: HostRuntime) -> Result<(), Fail> {
    let alloc = rt.alloc();
    fs::write(&rt, "v.part-Frag1", "1")?;
    fs::write(&rt, "v.part-Frag1.@0", "")?;
    fs::write(&rt, "v.part-Frag10", "10")?;
    let files = Counting::new(&rt);
    let mut folder = DiskFolder::new(&files, alloc);
    let mut parts = folder.fan(alloc, &stems(alloc, 20_000)?)?;
    for (at, part) in parts.iter_mut().enumerate() {
        let wanted = match at {
            1 => 2,
            10 => 1,
            _ => 0,
        };
        assert_eq!(rt; part.names(alloc, "v.part-Frag")?.len(), wanted);
        if at == 1 {
            assert_eq!(rt; part.remove("v.part-Frag1.@0"), Ok(()));
        }
        if at == 2 {
            assert_eq!(rt; part.create("v.part-Frag2"), Ok(()));
        }
    }
    assert_eq!(rt; files.listings(), 1);
    assert_eq!(rt; folder.names(alloc, "v.")?.len(), 0);
    folder.gather(parts);
    // A part that is back knows its names no more.
    assert_eq!(rt; folder.remove("v.part-Frag10"), Ok(()));
    assert_eq!(rt; folder.names(alloc, "v.")?.len(), 2);
    assert_eq!(rt; files.listings(), 1);
    assert_eq!(rt; folder.settle(), Ok(()));
    assert_eq!(rt; files.syncs(), 1);
    Ok(())
}
