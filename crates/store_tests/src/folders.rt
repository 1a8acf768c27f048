ghost use Rattle.std.specs.Prelude.{IfOk, OnOk};
ghost use Rattle.folder_base.specs.Memory.{world_of};
ghost use Rattle.folder_base.specs.Story.{IsWhole};

mod parts;
mod stops;

use folder_base::{Folder, FolderMem};
use std::alloc::Global;
use std::test::Fail;
use text_base::FolderFault;

pub fn empty(alloc: Global) -> Result<FolderMem, Fail>
    ensures { IfOk result (λ folder. IsWhole (world_of folder)) }
{
    Ok(FolderMem::new(alloc, Vec::new(alloc), Vec::new(alloc), None)?)
}

/// Each file that stands, with its first bytes.
pub fn listed(alloc: Global, folder: &mut FolderMem) -> Result<String, Fail>
    requires { IsWhole (world_of folder.old) }
{
    let mut listed = String::new(alloc);
    for name in &folder.names(alloc, "")? {
        let mut buf = [0; 16];
        let count = folder.read_at(name.as_str(), 0, &mut buf)?;
        listed.push_str(name.as_str())?;
        listed.push('=')?;
        listed.push_str(std::str::from_utf8(&buf[..count.min(16)])?)?;
        listed.push(' ')?;
    }
    Ok(listed)
}

fn write_and_cut(folder: &mut FolderMem) -> Result<(), FolderFault>
    requires { IsWhole (world_of folder.old) }
    ensures { OnOk result (IsWhole (world_of folder.new)) }
{
    folder.create("a")?;
    folder.append("a", b"some bytes")?;
    folder.cut("a", 7)
}

#[test]
fn a_file_is_cut_and_removed(rt: HostRuntime) -> Result<(), Fail> {
    let mut folder = empty(rt.alloc())?;
    write_and_cut(&mut folder)?;
    assert_eq!(rt; folder.size("a"), Ok(Some(7)));
    assert_eq!(rt; folder.remove("a"), Ok(()));
    assert_eq!(rt; folder.size("a"), Ok(None));
    Ok(())
}

#[test]
fn many_appends_stay_cheap(rt: HostRuntime) -> Result<(), Fail> {
    let mut folder = empty(rt.alloc())?;
    folder.create("a")?;
    for _ in 0..400_000 {
        folder.append("a", b"7 bytes")?;
    }
    assert_eq!(rt; folder.size("a"), Ok(Some(2_800_000)));
    Ok(())
}

fn crosses_threads<T: Send + Sync>(_value: &T) {}

#[test]
fn the_folder_crosses_threads(rt: HostRuntime) -> Result<(), Fail> {
    crosses_threads(&empty(rt.alloc())?);
    Ok(())
}
