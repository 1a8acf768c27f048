ghost use Rattle.std.specs.Prelude.{◌≡◌, ◌+◌, ◌*◌, ◌<◌, ◌≤◌, ◌^◌, false, length, IfOk, OnOk};
ghost use Rattle.folder_base.specs.Memory.{world_of};
ghost use Rattle.folder_base.specs.Story.{IsWhole};
ghost use Rattle.keep_store.specs.Seen.{lane_seen};

mod stops;

use crate::folders::empty;
use folder_base::{Folder, FolderMem, StoreFault};
use keep_store::{Lane, publish};
use std::alloc::Global;
use std::test::Fail;

const STEM: &str = "v.part-Frag3";

fn open_part(alloc: Global, folder: FolderMem) -> Result<Lane<FolderMem>, Fail>
    requires { IsWhole (world_of folder) }
    ensures part { IfOk result (λ lane. (lane_seen lane).complete ≡ false) }
    ensures small { IfOk result (λ lane. (lane_seen lane).size < 1000) }
{
    let Ok(lane) = Lane::open(alloc, folder, 3, STEM) else {
        return Err(Fail::from("no lane"));
    };
    if lane.complete() || lane.promised() >= 1000 {
        return Err(Fail::from("another lane"));
    }
    Ok(lane)
}

// Takes bytes so many times.
fn take_each<F: Folder>(lane: &mut Lane<F>, bytes: &[u8], times: u32) -> Result<(), StoreFault>
    requires part { (lane_seen lane.old).complete ≡ false }
    requires room { (lane_seen lane.old).size < 2 ^ 62 }
    requires short { length bytes.now ≤ 2097152 }
    ensures part { (lane_seen lane.new).complete ≡ false }
    ensures size { (lane_seen lane.new).size ≤ (lane_seen lane.old).size + 2097152 * times }
{
    for _ in 0..times {
        lane.take(bytes)?;
    }
    Ok(())
}

fn names_of(alloc: Global, folder: &mut FolderMem) -> Result<String, Fail> {
    let mut found = String::new(alloc);
    for name in &folder.names(alloc, "")? {
        found.push_str(name.as_str())?;
        found.push(' ')?;
    }
    Ok(found)
}

#[test]
fn a_published_file_has_its_new_name(rt: HostRuntime) -> Result<(), Fail> {
    let alloc = rt.alloc();
    let mut folder = empty(alloc)?;
    folder.create("a.part")?;
    folder.append("a.part", b"all of it")?;
    assert_eq!(rt; publish(&mut folder, "a.part", "a"), Ok(()));
    assert_eq!(rt; folder.size("a"), Ok(Some(9)));
    assert_eq!(rt; folder.size("a.part"), Ok(None));
    Ok(())
}

fn crosses_threads<T: Send + Sync>(_value: &T) {}

#[test]
fn a_lane_promises_at_marks(rt: HostRuntime) -> Result<(), Fail> {
    let alloc = rt.alloc();
    let mut lane = open_part(alloc, empty(alloc)?)?;
    crosses_threads(&lane);
    assert_eq!(rt; take_each(&mut lane, b"7 bytes", 357_142), Ok(()));
    assert_eq!(rt; take_each(&mut lane, b"6 byte", 1), Ok(()));
    assert_eq!(rt; lane.promised(), 2_097_152);
    assert_eq!(rt; lane.checkpoint(), Ok(()));
    assert_eq!(rt; lane.promised(), 2_500_000);
    assert_eq!(rt; lane.finish(), Ok(()));
    assert_eq!(rt; lane.complete(), true);
    let mut folder = lane.into_folder().after_stop(alloc, 99, 0)?;
    assert_eq!(rt; folder.size(STEM), Ok(Some(2_500_000)));
    assert_eq!(rt; folder.names(alloc, "")?.len(), 1);
    Ok(())
}

#[test]
fn the_greatest_promise_that_stands_is_taken(rt: HostRuntime) -> Result<(), Fail> {
    let alloc = rt.alloc();
    let mut folder = empty(alloc)?;
    for name in [
        "v.part-Frag3.@2",
        "v.part-Frag3.@4",
        "v.part-Frag3.@9",
        "v.part-Frag3.@18446744073709551616",
        "v.part-Frag3.@007",
        "v.part-Frag30.@5",
    ] {
        folder.create(name)?;
        folder.append(name, b"abcdef")?;
    }
    let lane = open_part(alloc, folder)?;
    assert_eq!(rt; lane.promised(), 4);
    let mut folder = lane.into_folder().after_stop(alloc, 99, 0)?;
    assert_eq!(rt; folder.size("v.part-Frag3.@4"), Ok(Some(4)));
    let names = "v.part-Frag3.@007 v.part-Frag3.@4 v.part-Frag30.@5 ";
    assert_eq!(rt; names_of(alloc, &mut folder)?.as_str(), names);
    Ok(())
}
