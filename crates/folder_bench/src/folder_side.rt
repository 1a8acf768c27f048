//! The work by the folder on the disk, and by lanes over it.
ghost use Rattle.std.specs.Prelude.{◌≡◌, OnOk, true};
ghost use Rattle.disk_folder.specs.Silent.{world_of};
ghost use Rattle.keep_store.specs.Seen.{lane_seen};

use crate::fault::Fault;
use crate::names::{promise, stems};
use crate::{BLOCK, BLOCKS};
use disk_folder::DiskFolder;
use folder_base::{Folder, StoreFault};
use keep_store::Lane;
use std::alloc::Global;
use std::fs::Files;

/// Grows a file by so many MiB as a lane does. It answers Ok only where no call of the folder failed.
pub fn append<R: Files>(
    alloc: Global,
    folder: &mut DiskFolder<'_, R>,
    count: u64,
) -> Result<(), Fault>
    ensures { OnOk result ((world_of folder.new).faults ≡ (world_of folder.old).faults) }
{
    let block = vec![in alloc; 0; BLOCK]?;
    let mut name = promise(alloc, 0, 0)?;
    folder.create(name.as_str())?;
    for done in 0..count {
        for _ in 0..BLOCKS {
            folder.append(name.as_str(), block.as_slice())?;
        }
        let next = promise(alloc, 0, done + 1)?;
        folder.sync(name.as_str())?;
        folder.rename(name.as_str(), next.as_str())?;
        name = next;
    }
    Ok(())
}

/// Opens so many lanes, each over its part of the folder.
pub fn open<'a, R: Files>(
    alloc: Global,
    folder: &mut DiskFolder<'a, R>,
    count: u64,
) -> Result<Vec<Lane<DiskFolder<'a, R>>>, Fault> {
    let stems = stems(alloc, count)?;
    let mut lanes = Vec::with_capacity(alloc, stems.len())?;
    for (part, stem) in folder.fan(alloc, &stems)?.into_iter().zip(&stems) {
        let number = lanes.len();
        lanes.push(Lane::open(alloc, part, number, stem.as_str())?)?;
    }
    Ok(lanes)
}

/// Gives a lane's piece its complete name. It answers Ok only where the piece has it.
fn finish_one<F: Folder>(lane: &mut Lane<F>) -> Result<(), StoreFault>
    ensures { OnOk result ((lane_seen lane.new).complete ≡ true) }
{
    if lane.complete() {
        return Ok(());
    }
    lane.finish()
}

/// Gives each lane's piece its complete name.
pub fn finish<F: Folder>(lanes: &mut Vec<Lane<F>>) -> Result<(), StoreFault> {
    for lane in lanes {
        finish_one(lane)?;
    }
    Ok(())
}
