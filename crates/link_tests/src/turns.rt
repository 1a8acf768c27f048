//! A piece over a lane and a dialer in memory.
ghost use Rattle.std.specs.Prelude.{◌≤◌, IfOk};
ghost use Rattle.keep_store.specs.Seen.{lane_seen};
ghost use Rattle.piece_turn.specs.Lane.{IsAsOpened};

use folder_base::{File, FolderCall, FolderMem};
use keep_store::Lane;
use link_http::{DialerMem, Page, Piece, PieceFault, Turn};
use piece_turn::{PieceEnd, fetch_piece};
use std::alloc::Global;
use std::process::Abort;
use std::test::Fail;
use text_base::Text;

const URL: &str = "http://127.0.0.1/v";

/// A lane over a folder with this file, whose calls of these numbers fail.
fn lane_of(alloc: Global, name: &str, bytes: &[u8], fails: &[u64]) -> Result<Lane<FolderMem>, Fail>
    ensures { IfOk result (λ lane. IsAsOpened (lane_seen lane)) }
{
    let mut files = Vec::new(alloc);
    files.push(File {
        name: Text::new(alloc, name)?,
        bytes: bytes.to_vec(alloc)?,
    })?;
    let folder = FolderMem::new(alloc, files, fails.to_vec(alloc)?, None)?;
    let Ok(lane) = Lane::open(alloc, folder, 0, "v.part-Frag0") else {
        return Err(Fail::from("no lane"));
    };
    Ok(lane)
}

/// A dialer for `abcdef` by this script.
fn dialer_of(alloc: Global, script: Vec<Turn>) -> Result<DialerMem, Fail> {
    let mut pages = Vec::new(alloc);
    pages.push(Page {
        url: Text::new(alloc, URL)?,
        bytes: b"abcdef".to_vec(alloc)?,
    })?;
    Ok(DialerMem::new(alloc, pages, script)?)
}

fn piece_of(alloc: Global, url: &str) -> Result<Piece, Fail> {
    Ok(Piece {
        url: Text::new(alloc, url)?,
        headers: Vec::new(alloc),
    })
}

/// What a new piece comes to by this script.
fn comes_to(
    rt: &(impl Abort + AllocGlobal),
    script: Vec<Turn>,
    retries: u32,
    end: PieceEnd,
    asked: usize,
    promised: u64,
) -> Result<(), Fail>
    requires { retries ≤ 1000 }
{
    let alloc = rt.alloc();
    let mut lane = lane_of(alloc, "other", b"", &[])?;
    let mut dialer = dialer_of(alloc, script)?;
    let piece = piece_of(alloc, URL)?;
    assert_eq!(rt;
        fetch_piece(alloc, &mut lane, &mut dialer, &piece, retries),
        end
    );
    assert_eq!(rt; dialer.asked().len(), asked);
    assert_eq!(rt; lane.promised(), promised);
    Ok(())
}

#[test]
fn a_piece_is_tried_again_from_its_promise(rt: HostRuntime) -> Result<(), Fail> {
    let rt = &rt;
    let alloc = rt.alloc();
    let script = vec![in alloc; Turn::Cut(3), Turn::Status(503), Turn::Honest]?;
    comes_to(rt, script, 2, PieceEnd::Done { tries: 3 }, 3, 6)?;
    let script = vec![in alloc; Turn::Cut(3), Turn::Cut(0), Turn::Cut(0)]?;
    let cause = PieceFault::CutShort {
        got: 3,
        told: Some(6),
    };
    comes_to(rt, script, 2, PieceEnd::Failed { tries: 3, cause }, 3, 3)?;
    let script = vec![in alloc; Turn::DialFails, Turn::Honest]?;
    let cause = PieceFault::Dial;
    comes_to(rt, script, 0, PieceEnd::Failed { tries: 1, cause }, 0, 0)?;
    let other = b"HTTP/1.1 206 Partial Content\r\nContent-Range: bytes 3-6/7\r\n\r\ndefg".to_vec(
        alloc,
    )?;
    let script = vec![in alloc; Turn::Cut(3), Turn::Raw(other)]?;
    let cause = PieceFault::SizeChanged { before: 6, now: 7 };
    comes_to(rt, script, 1, PieceEnd::Failed { tries: 2, cause }, 2, 3)?;
    Ok(())
}

/// What a piece comes to whose folder has this file, and whose calls of these numbers fail; its first
/// reply is cut short.
fn of_file(alloc: Global, name: &str, fails: &[u64], url: &str) -> Result<PieceEnd, Fail> {
    let mut lane = lane_of(alloc, name, b"abcdef", fails)?;
    let mut dialer = dialer_of(alloc, vec![in alloc; Turn::Cut(3)]?)?;
    let piece = piece_of(alloc, url)?;
    Ok(fetch_piece(alloc, &mut lane, &mut dialer, &piece, 4))
}

#[test]
fn some_ends_come_at_once(rt: HostRuntime) -> Result<(), Fail> {
    let alloc = rt.alloc();
    let whole = of_file(alloc, "v.part-Frag0", &[], URL)?;
    assert_eq!(rt; whole, PieceEnd::Done { tries: 0 });
    let promised = of_file(alloc, "v.part-Frag0.@6", &[], URL)?;
    assert_eq!(rt; promised, PieceEnd::Done { tries: 1 });
    let cause = PieceFault::Scheme;
    let https = of_file(alloc, "other", &[], "https://127.0.0.1/v")?;
    assert_eq!(rt; https, PieceEnd::Failed { tries: 1, cause });
    // The calls of a new lane: names, size, create; append, sync, rename; append, sync, rename.
    let cause = PieceFault::Folder {
        call: FolderCall::Rename,
    };
    assert_eq!(rt;
        of_file(alloc, "other", &[5], URL)?,
        PieceEnd::Failed { tries: 1, cause }
    );
    let cause = PieceFault::Folder {
        call: FolderCall::Append,
    };
    assert_eq!(rt;
        of_file(alloc, "other", &[6], URL)?,
        PieceEnd::Failed { tries: 2, cause }
    );
    let cause = PieceFault::Folder {
        call: FolderCall::Sync,
    };
    assert_eq!(rt;
        of_file(alloc, "other", &[7], URL)?,
        PieceEnd::Failed { tries: 2, cause }
    );
    Ok(())
}
