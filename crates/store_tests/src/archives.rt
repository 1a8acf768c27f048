ghost use Rattle.std.specs.Prelude.{◌≡◌, IfOk, true};
ghost use Rattle.archive_store.specs.Lines.{is_line};
ghost use Rattle.folder_base.specs.Memory.{world_of};
ghost use Rattle.folder_base.specs.Story.{IsWhole};

use crate::components::folder_with;
use archive_store::*;
use folder_base::{Folder, FolderMem};
use std::alloc::Global;
use std::process::Abort;
use std::test::Fail;

// A folder in which the archive `a` has these bytes, and a write of earlier was stopped.
fn folder_of(alloc: Global, bytes: &[u8], stop: Option<u64>) -> Result<FolderMem, Fail>
    ensures { IfOk result (λ folder. IsWhole (world_of folder)) }
{
    let files: [(&str, &[u8]); 2] = [("a", bytes), ("a.new", b"a b\nh")];
    folder_with(alloc, &files, stop)
}

fn holds(rt: &impl Abort, folder: &mut FolderMem, name: &str, wanted: &str) -> Result<(), Fail>
    requires { IsWhole (world_of folder.old) }
{
    let mut buf = [0; 32];
    let count = folder.read_at(name, 0, &mut buf)?;
    assert_eq!(rt; &buf[..count.min(32)], wanted.as_bytes());
    Ok(())
}

/// An archive's text, and whether `a b` is one of its lines.
const LINES: [(&str, bool); 7] = [
    ("a b", true),
    ("x\na b\r\ny\n", true),
    (" \t a b\t\n", true),
    ("", false),
    (" \n\t\n", false),
    ("a  b\n", false),
    ("a b c\na", false),
];

#[test]
fn lines_are_read_without_white_space_at_their_ends(rt: HostRuntime) -> Result<(), Fail> {
    let alloc = rt.alloc();
    for (text, wanted) in &LINES {
        let mut folder = folder_of(alloc, text.as_bytes(), None)?;
        let archive = Archive::read(alloc, &mut folder, "a")?;
        assert_eq!(rt; archive.has("a b"), *wanted, "{text}");
        let none = Archive::read(alloc, &mut folder, "none")?;
        assert!(rt; !none.has("a b"));
    }
    Ok(())
}

/// An archive's bytes, and the number of the first line that is not UTF-8.
const BAD_LINES: [(&[u8], usize); 3] = [
    (b"\xff", 1),
    (b"a b\n\xc3\n\xff\n", 2),
    (b"a b\n\n\x80", 3),
];

#[test]
fn the_first_line_that_is_not_utf8_is_told(rt: HostRuntime) -> Result<(), Fail> {
    let alloc = rt.alloc();
    for (bytes, wanted) in &BAD_LINES {
        let mut folder = folder_of(alloc, bytes, None)?;
        match Archive::read(alloc, &mut folder, "a") {
            Ok(_) => return Err(Fail::from("read")),
            Err(fault) => assert_eq!(rt; fault, ArchiveFault::BadText { line: *wanted }),
        }
    }
    Ok(())
}

// The archive is read, and a line is added.
fn add_to(alloc: Global, folder: &mut FolderMem, line: &str) -> Result<Archive, ArchiveFault>
    requires whole { IsWhole (world_of folder.old) }
    requires line { is_line line.now ≡ true }
    ensures { IsWhole (world_of folder.new) }
{
    let mut archive = Archive::read(alloc, folder, "a")?;
    archive.add(alloc, folder, line)?;
    Ok(archive)
}

/// An archive's text, and what it is once `c d` was added.
const GROWN: [(&str, &str); 5] = [
    ("a b", "a b\nc d\n"),
    ("a b\n", "a b\nc d\n"),
    ("", "c d\n"),
    (" \n\t", " \n\t\nc d\n"),
    ("c d\r\na b", "c d\r\na b"),
];

#[test]
fn a_line_is_added_once_and_behind_a_line_feed(rt: HostRuntime) -> Result<(), Fail> {
    let alloc = rt.alloc();
    for (text, wanted) in &GROWN {
        let mut folder = folder_of(alloc, text.as_bytes(), None)?;
        let archive = add_to(alloc, &mut folder, "c d")?;
        assert!(rt; archive.has("c d"));
        holds(&rt, &mut folder, "a", wanted)?;
    }
    Ok(())
}

// A line was to be added, the folder stopped, and it is added again over what was left.
fn added_on(alloc: Global, stop: u64, kept: u64, fill: u8) -> Result<FolderMem, Fail>
    ensures { IfOk result (λ folder. IsWhole (world_of folder)) }
{
    let mut folder = folder_of(alloc, b"a b", Some(stop))?;
    let _ = add_to(alloc, &mut folder, "c d").is_ok();
    let mut left = folder.after_stop(alloc, kept, fill)?;
    add_to(alloc, &mut left, "c d")?;
    Ok(left)
}

#[test]
fn a_line_is_added_after_a_stop_at_each_call(rt: HostRuntime) -> Result<(), Fail> {
    let alloc = rt.alloc();
    for stop in 0..12 {
        for kept in 0..4 {
            for fill in [0, 255] {
                let mut folder = added_on(alloc, stop, kept, fill)?;
                holds(&rt, &mut folder, "a", "a b\nc d\n")?;
            }
        }
    }
    Ok(())
}
