ghost use Rattle.std.specs.Prelude.{◌≡◌, ◌≤◌, [], ◌∷◌, length, IfOk};
ghost use Rattle.folder_base.specs.Memory.{world_of};
ghost use Rattle.folder_base.specs.Story.{IsWhole};
ghost use Rattle.keep_store.specs.Lane.{IsLaneFolder};
ghost use Rattle.keep_store.specs.Seen.{lane_seen};

use folder_base::{Folder, FolderMem, StoreFault};
use keep_store::Lane;
use std::alloc::Global;
use std::process::Abort;
use std::test::Fail;
use text_base::Text;

const STEM: &str = "v.part-Frag3";

// Takes what the piece still wants, the first of it promised before the rest, and finishes it.
fn fetch_rest(lane: &mut Lane<FolderMem>, bytes: &[u8]) -> Result<(), StoreFault>
    requires opened { (lane_seen lane.old).promised ≡ (lane_seen lane.old).size }
    requires short { length bytes.now ≤ 1000 }
    ensures part { (lane_seen lane.new).world.part ≡ (lane_seen lane.old).world.part }
    ensures out { (lane_seen lane.new).world.out ≡ (lane_seen lane.old).world.out }
{
    let at = lane.promised() as usize;
    if lane.complete() || at > bytes.len() {
        return Ok(());
    }
    let rest = &bytes[at..];
    let (front, back) = rest.split_at(rest.len() / 2);
    lane.take(front)?;
    lane.checkpoint()?;
    lane.take(back)?;
    lane.finish()
}

// Fetches a piece as far as its folder allows.
fn fetch(alloc: Global, folder: FolderMem, stem: &str, bytes: &[u8]) -> FolderMem
    requires lane { IsLaneFolder stem.now (world_of folder) }
    requires short { length bytes.now ≤ 1000 }
    ensures part { (world_of result).part ≡ (world_of folder).part }
    ensures out { (world_of result).out ≡ (world_of folder).out }
{
    match Lane::open(alloc, folder, 3, stem) {
        Ok(mut lane) => {
            let _ = fetch_rest(&mut lane, bytes);
            lane.into_folder()
        }
        Err(refused) => refused.folder,
    }
}

// A piece that was stopped, and fetched on over what was left.
fn fetched_on(alloc: Global, stop: u64, kept: u64, fill: u8) -> Result<FolderMem, Fail>
    ensures { IfOk result (λ folder. IsWhole (world_of folder)) }
{
    let folder = FolderMem::new(alloc, Vec::new(alloc), Vec::new(alloc), Some(stop))?;
    let stopped = fetch(alloc, folder, STEM, b"ten bytes!");
    let left = stopped.after_stop(alloc, kept, fill)?;
    Ok(fetch(alloc, left, STEM, b"ten bytes!"))
}

fn holds(rt: &impl Abort, folder: &mut FolderMem, name: &str, wanted: &[u8]) -> Result<(), Fail>
    requires { IsWhole (world_of folder.old) }
    ensures { IsWhole (world_of folder.new) }
{
    let mut buf = [0; 16];
    let count = folder.read_at(name, 0, &mut buf)?;
    assert_eq!(rt; &buf[..count.min(16)], wanted);
    Ok(())
}

#[test]
fn a_piece_is_fetched_on_after_a_stop_at_each_call(rt: HostRuntime) -> Result<(), Fail> {
    let alloc = rt.alloc();
    for stop in 0..12 {
        for kept in 0..4 {
            for fill in [0, 255] {
                let mut folder = fetched_on(alloc, stop, kept, fill)?;
                holds(&rt, &mut folder, STEM, b"ten bytes!")?;
                assert_eq!(rt; folder.names(alloc, "")?.len(), 1);
            }
        }
    }
    Ok(())
}
