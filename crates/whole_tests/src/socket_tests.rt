//! Fetches over sockets, from a server of files in a thread of its own.
ghost use Rattle.std.specs.Prelude.{◌≡◌, ◌<◌, ◌≤◌, false, length, IfOk};
ghost use Rattle.folder_base.specs.Story.{IsWhole};
ghost use Rattle.keep_store.specs.Seen.{lane_seen};

use file_server::serve;
use folder_base::{Folder, FolderMem};
use keep_store::Lane;
use link_http::{Dialer, Fetched, Piece, fetch_from};
use std::alloc::Global;
use std::net::TcpListener;
use std::test::Fail;
use std::{fs, thread};
use tcp_dialer::TcpDialer;
use text_base::{FolderFault, Text};

/// The bytes of the served file.
const SIZE: usize = 5000;

/// A lane that took these bytes.
fn lane_with(alloc: Global, bytes: &[u8]) -> Result<Lane<FolderMem>, Fail>
    requires { length bytes.now ≤ 5000 }
    ensures part { IfOk result (λ lane. (lane_seen lane).complete ≡ false) }
    ensures small { IfOk result (λ lane. (lane_seen lane).size < 6000) }
    ensures whole { IfOk result (λ lane. IsWhole (lane_seen lane).world) }
{
    let folder = FolderMem::new(alloc, Vec::new(alloc), Vec::new(alloc), None)?;
    let Ok(mut lane) = Lane::open(alloc, folder, 3, "v.part-Frag3") else {
        return Err(Fail::from("no lane"));
    };
    if lane.complete() || lane.promised() >= 1000 {
        return Err(Fail::from("another lane"));
    }
    lane.take(bytes)?;
    Ok(lane)
}

/// The bytes of a lane's file, which is the only one of its folder.
fn lane_bytes(alloc: Global, lane: Lane<FolderMem>) -> Result<Vec<u8>, Fail>
    requires { IsWhole (lane_seen lane).world }
{
    let mut folder = lane.into_folder();
    let names = folder.names(alloc, "")?;
    let [name] = names.as_slice() else {
        return Err(Fail::from("not one file"));
    };
    let mut bytes = vec![in alloc; 0; SIZE + 1]?;
    let count = folder.read_at(name.as_str(), 0, &mut bytes)?;
    bytes.truncate(count);
    Ok(bytes)
}

/// Fetches the served file into a lane that has this front of it, and gives the lane's bytes.
fn fetched<D: Dialer>(
    alloc: Global,
    dialer: &mut D,
    port: u16,
    front: &[u8],
) -> Result<Vec<u8>, Fail>
    requires { length front.now ≤ 5000 }
{
    let mut lane = lane_with(alloc, front)?;
    let url = format!(in alloc; "http://127.0.0.1:{port}/a%20b.bin?x")?;
    let piece = Piece {
        url: Text::from(url),
        headers: Vec::new(alloc),
    };
    let from = front.len() as u64;
    let answer = fetch_from(alloc, dialer, &piece, from, &mut None, &mut lane)?;
    if answer != (Fetched { total: SIZE as u64 }) {
        return Err(Fail::from("another total"));
    }
    lane_bytes(alloc, lane)
}

#[test]
fn a_served_file_is_fetched(rt: HostRuntime) -> Result<(), Fail> {
    let alloc = rt.alloc();
    let bytes = served_bytes(alloc)?;
    fs::create_dir(&rt, "served")?;
    fs::write(&rt, "served/a b.bin", bytes.as_slice())?;
    let listener = TcpListener::bind(&rt, "127.0.0.1:0")?;
    let port = listener.local_addr()?.port();
    let server = thread::spawn(&rt, move || serve(&rt, &listener, "served", 2).is_ok())?;
    let mut dialer = TcpDialer::new(&rt);
    let whole = fetched(alloc, &mut dialer, port, &[])?;
    let rest = fetched(alloc, &mut dialer, port, bytes.as_slice().split_at(1234).0)?;
    assert!(rt; server.join(&rt));
    assert_eq!(rt; whole.as_slice(), bytes.as_slice());
    assert_eq!(rt; rest.as_slice(), bytes.as_slice());
    Ok(())
}

/// Bytes that tell their places apart.
fn served_bytes(alloc: Global) -> Result<Vec<u8>, Fail>
    ensures { IfOk result (λ bytes. length bytes.items ≡ 5000) }
{
    let mut bytes = vec![in alloc; 0; SIZE]?;
    for (i, byte) in bytes.iter_mut().enumerate() {
        *byte = (i % 251) as u8;
    }
    Ok(bytes)
}

#[test]
fn nothing_listens(rt: HostRuntime) -> Result<(), Fail> {
    let listener = TcpListener::bind(&rt, "127.0.0.1:0")?;
    let port = listener.local_addr()?.port();
    drop(listener);
    let mut dialer = TcpDialer::new(&rt);
    assert_eq!(rt; dialer.dial("127.0.0.1", port), Err(FolderFault::Failed));
    assert_eq!(rt; dialer.faults(), 1);
    assert_eq!(rt; dialer.dial("[::1]", port), Err(FolderFault::Failed));
    assert_eq!(rt; dialer.faults(), 2);
    Ok(())
}
