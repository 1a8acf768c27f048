//! One component's turn, over a folder and dialers in memory.
ghost use Rattle.std.specs.Prelude.{◌≡◌, ◌<◌, ◌≤◌, true, IfOk, vec_len};
ghost use Rattle.component_turn.specs.Plan.{line_of};
ghost use Rattle.folder_base.specs.Memory.{world_of};
ghost use Rattle.folder_base.specs.Story.{IsWhole};
ghost use Rattle.plan_record.specs.Plan.{is_line, is_without};

use component_turn::{Component, ComponentEnd, Settings, make_component};
use folder_base::{Folder, FolderMem};
use link_http::{DialerMem, Page, Piece, PieceFault, Turn};
use std::alloc::Global;
use std::process::Abort;
use std::test::Fail;
use std::thread::Threads;
use text_base::Text;

/// The piece of this URL, which has no LF.
fn piece_of(alloc: Global, url: &str) -> Result<Piece, Fail>
    requires { is_without 10 url.now ≡ true }
    ensures { IfOk result (λ piece. is_line (line_of piece) ≡ true) }
{
    Ok(Piece {
        url: Text::new(alloc, url)?,
        headers: Vec::new(alloc),
    })
}

/// A dialer for two pages of 5 and 7 bytes.
fn dialer_of(alloc: Global, script: Vec<Turn>) -> Result<DialerMem, Fail> {
    let mut pages = Vec::new(alloc);
    for (url, bytes) in [
        ("http://h/0", b"abcde".as_slice()),
        ("http://h/1", b"fghijkl"),
    ] {
        pages.push(Page {
            url: Text::new(alloc, url)?,
            bytes: bytes.to_vec(alloc)?,
        })?;
    }
    Ok(DialerMem::new(alloc, pages, script)?)
}

/// The component of both pages.
fn component_of(alloc: Global) -> Result<Component, Fail> {
    let first = piece_of(alloc, "http://h/0")?;
    let second = piece_of(alloc, "http://h/1")?;
    let pieces = vec![in alloc; first, second]?;
    Ok(Component::new(alloc, "v.mp4", pieces, true)?)
}

/// Its turn, with one try a piece.
fn turn(
    rt: &(impl Threads + Sync),
    alloc: Global,
    folder: &mut FolderMem,
    dialers: &mut Vec<DialerMem>,
    workers: usize,
) -> Result<ComponentEnd, Fail>
    requires whole { IsWhole (world_of folder.old) }
    requires workers { (0 < workers) × (workers ≤ 32) × (workers ≤ vec_len dialers.old) }
    ensures whole { IsWhole (world_of folder.new) }
    ensures dialers { vec_len dialers.new ≡ vec_len dialers.old }
{
    let component = component_of(alloc)?;
    let settings = Settings {
        fresh: false,
        workers,
        retries: 0,
    };
    let Ok(end) = make_component(rt, alloc, folder, dialers, &component, settings) else {
        return Err(Fail::from("a fault"));
    };
    Ok(end)
}

/// How many requests these dialers were asked for.
fn requests(dialers: &[DialerMem]) -> usize {
    let mut count = 0usize;
    for dialer in dialers {
        count = count.saturating_add(dialer.asked().len());
    }
    count
}

/// The component's size, where it stands.
fn size_in(folder: &mut FolderMem) -> Result<Option<u64>, Fail>
    requires { IsWhole (world_of folder.old) }
    ensures { IsWhole (world_of folder.new) }
{
    let Ok(size) = folder.size("v.mp4") else {
        return Err(Fail::from("no size"));
    };
    Ok(size)
}

#[test]
fn a_component_is_made_and_is_complete_then(rt: HostRuntime) -> Result<(), Fail> {
    let alloc = rt.alloc();
    let mut folder = FolderMem::new(alloc, Vec::new(alloc), Vec::new(alloc), None)?;
    let first = dialer_of(alloc, Vec::new(alloc))?;
    let second = dialer_of(alloc, Vec::new(alloc))?;
    let mut dialers = vec![in alloc; first, second]?;
    let end = turn(&rt, alloc, &mut folder, &mut dialers, 2)?;
    assert!(rt; end == ComponentEnd::Whole);
    assert_eq!(rt; requests(&dialers), 2);
    let end = turn(&rt, alloc, &mut folder, &mut dialers, 2)?;
    assert!(rt; end == ComponentEnd::Whole);
    assert_eq!(rt; requests(&dialers), 2);
    assert!(rt; size_in(&mut folder)? == Some(12));
    Ok(())
}

#[test]
fn a_piece_that_fails_leaves_the_others_promised(rt: HostRuntime) -> Result<(), Fail> {
    let alloc = rt.alloc();
    let mut folder = FolderMem::new(alloc, Vec::new(alloc), Vec::new(alloc), None)?;
    let turns = vec![in alloc; Turn::Honest, Turn::Status(503)]?;
    let fails = dialer_of(alloc, turns)?;
    let mut dialers = vec![in alloc; fails]?;
    let end = turn(&rt, alloc, &mut folder, &mut dialers, 1)?;
    let cause = PieceFault::Status { code: 503 };
    assert!(rt;
        end == ComponentEnd::Failed {
            piece: 1,
            tries: 1,
            cause
        }
    );
    assert!(rt; size_in(&mut folder)?.is_none());
    // Gone on with, the first piece is not asked for again.
    let mut dialers = vec![in alloc; dialer_of(alloc, Vec::new(alloc))?]?;
    let end = turn(&rt, alloc, &mut folder, &mut dialers, 1)?;
    assert!(rt; end == ComponentEnd::Whole);
    assert_eq!(rt; requests(&dialers), 1);
    Ok(())
}
