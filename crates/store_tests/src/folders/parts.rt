//! A folder stays cheap with many parts.
ghost use Rattle.std.specs.Prelude.{◌≡◌, IfOk, IsTrue};
ghost use Rattle.folder_base.specs.Memory.{world_of};
ghost use Rattle.folder_base.specs.Parts.{AreApart};
ghost use Rattle.folder_base.specs.Story.{IsWhole, is_own};

use folder_base::{Folder, FolderMem};
use std::alloc::Global;
use std::process::Abort;
use std::test::Fail;
use text_base::{FolderFault, Text};

// The stems of the first fragments of a file.
fn fragment_stems(alloc: Global, count: u64) -> Result<Vec<Text>, Fail>
    ensures { IfOk result (λ stems. AreApart stems.items) }
{
    let mut stems = Vec::new(alloc);
    for number in 0..count {
        stems.push(Text::from(format!(in alloc; "v.part-Frag{number}")?))?;
    }
    Ok(stems)
}

// Makes a file that holds its own name.
fn write_name(part: &mut FolderMem, name: &str) -> Result<(), FolderFault>
    requires { IsTrue (is_own (world_of part.old) name.now) }
    ensures part { (world_of part.new).part ≡ (world_of part.old).part }
    ensures out { (world_of part.new).out ≡ (world_of part.old).out }
{
    part.create(name)?;
    part.append(name, name.as_bytes())
}

// A folder with a file for each stem, written in a part of its own.
fn written_in_parts(alloc: Global, stems: &Vec<Text>) -> Result<FolderMem, Fail>
    requires { AreApart stems.now.items }
    ensures { IfOk result (λ folder. IsWhole (world_of folder)) }
{
    let mut folder = FolderMem::new(alloc, Vec::new(alloc), Vec::new(alloc), None)?;
    let mut parts = folder.fan(alloc, stems)?;
    for (at, part) in parts.iter_mut().enumerate() {
        write_name(part, stems[at].as_str())?;
    }
    folder.gather(parts);
    Ok(folder)
}

// Each file is found, with its own name in it.
fn finds_each(rt: &impl Abort, folder: &mut FolderMem, stems: &Vec<Text>) -> Result<(), Fail>
    requires { IsWhole (world_of folder.old) }
    ensures { IsWhole (world_of folder.new) }
{
    for stem in stems {
        let name = stem.as_str();
        let mut buf = [0; 16];
        assert_eq!(rt; folder.size(name), Ok(Some(name.len() as u64)));
        let count = folder.read_at(name, 0, &mut buf)?;
        assert_eq!(rt; &buf[..count.min(16)], name.as_bytes());
    }
    Ok(())
}

#[test]
fn many_parts_stay_cheap(rt: HostRuntime) -> Result<(), Fail> {
    let alloc = rt.alloc();
    let stems = fragment_stems(alloc, 20_000)?;
    let mut folder = written_in_parts(alloc, &stems)?;
    finds_each(&rt, &mut folder, &stems)?;
    assert_eq!(rt; folder.names(alloc, "v.")?.len(), 20_000);
    Ok(())
}
