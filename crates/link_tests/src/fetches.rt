//! The pieces of a component by several workers, over lanes in memory.
ghost use Rattle.std.specs.Prelude.{◌≡◌, ◌<◌, ◌≤◌, ◌+◌, ◌^◌, OnOk, IfOk, vec_len};
ghost use Rattle.frag_crew.specs.Crew.{AreReady};

mod staged;

use folder_base::FolderMem;
use frag_crew::{PieceEnd, fetch_all};
use keep_store::Lane;
use link_http::{DialerMem, Page, Piece, PieceFault, Turn};
use staged::{Stage, Staged, Waits};
use std::alloc::Global;
use std::process::Abort;
use std::sync::atomic::AtomicU64;
use std::test::Fail;
use text_base::Text;

/// Puts a lane behind the others, over a folder of its own.
fn push_lane(alloc: Global, lanes: &mut Vec<Lane<FolderMem>>) -> Result<(), Fail>
    requires { AreReady lanes.old.items }
    ensures ready { OnOk result (AreReady lanes.new.items) }
    ensures many { OnOk result (vec_len lanes.new ≡ vec_len lanes.old + 1) }
{
    let folder = FolderMem::new(alloc, Vec::new(alloc), Vec::new(alloc), None)?;
    let Ok(lane) = Lane::open(alloc, folder, lanes.len(), "v.part-Frag") else {
        return Err(Fail::from("no lane"));
    };
    lanes.push(lane)?;
    Ok(())
}

/// The piece of this URL.
fn piece_of(alloc: Global, url: &str) -> Result<Piece, Fail> {
    Ok(Piece {
        url: Text::new(alloc, url)?,
        headers: Vec::new(alloc),
    })
}

/// A dialer for pages of 1, 2, 3 and 4 bytes.
fn dialer_of(alloc: Global, script: Vec<Turn>) -> Result<DialerMem, Fail> {
    let mut pages = Vec::new(alloc);
    for (url, bytes) in [
        ("http://h/0", b"a".as_slice()),
        ("http://h/1", b"bb"),
        ("http://h/2", b"ccc"),
        ("http://h/3", b"dddd"),
    ] {
        pages.push(Page {
            url: Text::new(alloc, url)?,
            bytes: bytes.to_vec(alloc)?,
        })?;
    }
    Ok(DialerMem::new(alloc, pages, script)?)
}

#[test]
fn where_a_piece_fails_the_later_ones_are_left(rt: HostRuntime) -> Result<(), Fail> {
    let alloc = rt.alloc();
    let mut lanes = Vec::new(alloc);
    push_lane(alloc, &mut lanes)?;
    push_lane(alloc, &mut lanes)?;
    push_lane(alloc, &mut lanes)?;
    push_lane(alloc, &mut lanes)?;
    let pieces = vec![in alloc;
        piece_of(alloc, "http://h/0")?,
        piece_of(alloc, "http://h/1")?,
        piece_of(alloc, "http://h/2")?,
        piece_of(alloc, "http://h/3")?,
    ]?;
    let fails = dialer_of(alloc, vec![in alloc; Turn::Status(503)]?)?;
    let mut dialers = vec![in alloc; fails, dialer_of(alloc, Vec::new(alloc))?]?;
    let Ok(end) = fetch_all(&rt, alloc, lanes, &pieces, &mut dialers, 2, 0) else {
        return Err(Fail::from("no memory"));
    };
    let cause = PieceFault::Status { code: 503 };
    let mut begun = true;
    let mut failed = 0u64;
    for (k, (lane, end)) in end.lanes.iter().zip(&end.ends).enumerate() {
        match end {
            PieceEnd::NotBegun => begun = false,
            PieceEnd::Done { tries } => {
                assert!(rt; begun && *tries == 1 && lane.complete());
                assert_eq!(rt; lane.promised(), (k as u64).saturating_add(1));
            }
            PieceEnd::Failed { tries, cause: why } => {
                assert!(rt; begun && *tries == 1 && *why == cause);
                failed = failed.saturating_add(1);
            }
        }
    }
    // Where the other worker took all pieces none failed.
    assert!(rt; failed == 1 || begun);
    Ok(())
}

/// A reply with this many bytes.
fn reply_of(alloc: Global, count: usize) -> Result<Vec<u8>, Fail> {
    let text = format!(in alloc; "HTTP/1.1 200 OK\r\nContent-Length: {count}\r\n\r\n")?;
    let mut reply = text.as_bytes().to_vec(alloc)?;
    let body = vec![in alloc; b'x'; count]?;
    reply.extend_from_slice(&body)?;
    Ok(reply)
}

fn waiting(stage: &Stage, waits: Waits) -> Staged<'_> {
    Staged {
        stage,
        waits,
        piece: 0,
        at: 0,
        open: false,
        faults: 0,
    }
}

#[test]
fn two_workers_fetch_at_once(rt: HostRuntime) -> Result<(), Fail> {
    let alloc = rt.alloc();
    let stage = Stage {
        replies: vec![in alloc; reply_of(alloc, 3)?, reply_of(alloc, 4)?]?,
        asked: AtomicU64::new(0),
        ended: AtomicU64::new(0),
    };
    let mut lanes = Vec::new(alloc);
    push_lane(alloc, &mut lanes)?;
    push_lane(alloc, &mut lanes)?;
    let pieces = vec![in alloc;
        piece_of(alloc, "http://h/0")?,
        piece_of(alloc, "http://h/1")?,
    ]?;
    let waits = Waits::ForTwoRequests;
    let mut dialers = vec![in alloc; waiting(&stage, waits), waiting(&stage, waits)]?;
    let Ok(end) = fetch_all(&rt, alloc, lanes, &pieces, &mut dialers, 2, 0) else {
        return Err(Fail::from("no memory"));
    };
    let done = PieceEnd::Done { tries: 1 };
    assert_eq!(rt; end.ends.as_slice(), [done, done].as_slice());
    Ok(())
}

#[test]
fn the_third_reply_comes_first(rt: HostRuntime) -> Result<(), Fail> {
    let alloc = rt.alloc();
    let sizes = [5, 0, 1_048_576];
    let stage = Stage {
        replies: vec![in alloc;
            reply_of(alloc, 5)?,
            reply_of(alloc, 0)?,
            reply_of(alloc, 1_048_576)?,
        ]?,
        asked: AtomicU64::new(0),
        ended: AtomicU64::new(0),
    };
    let mut lanes = Vec::new(alloc);
    push_lane(alloc, &mut lanes)?;
    push_lane(alloc, &mut lanes)?;
    push_lane(alloc, &mut lanes)?;
    let pieces = vec![in alloc;
        piece_of(alloc, "http://h/0")?,
        piece_of(alloc, "http://h/1")?,
        piece_of(alloc, "http://h/2")?,
    ]?;
    let waits = Waits::ForTheLast;
    let mut dialers = vec![in alloc;
        waiting(&stage, waits),
        waiting(&stage, waits),
        waiting(&stage, waits),
        waiting(&stage, waits),
    ]?;
    let Ok(end) = fetch_all(&rt, alloc, lanes, &pieces, &mut dialers, 4, 2) else {
        return Err(Fail::from("no memory"));
    };
    let done = PieceEnd::Done { tries: 1 };
    assert_eq!(rt; end.ends.as_slice(), [done, done, done].as_slice());
    for (lane, size) in end.lanes.iter().zip(sizes) {
        assert!(rt; lane.complete());
        assert_eq!(rt; lane.promised(), size);
    }
    Ok(())
}
