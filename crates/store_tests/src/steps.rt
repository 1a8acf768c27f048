ghost use Rattle.std.specs.Prelude.{◌≡◌, ◌<◌, [], false, length, bytes_eq, IfOk};
ghost use Rattle.folder_base.specs.Memory.{world_of};
ghost use Rattle.folder_base.specs.Story.{IsWhole};

use crate::folders::listed;
use folder_base::{File, FolderMem};
use folder_steps::{drop_name, holds, is_there, new_buffer, pour, replace, settle, size_of, sweep};
use std::alloc::Global;
use std::test::Fail;
use text_base::Text;

fn folder_of(alloc: Global, files: &[(&str, &str)]) -> Result<FolderMem, Fail>
    ensures { IfOk result (λ folder. IsWhole (world_of folder)) }
{
    let mut made = Vec::new(alloc);
    for (name, bytes) in files {
        let name = Text::new(alloc, name)?;
        let bytes = bytes.as_bytes().to_vec(alloc)?;
        made.push(File { name, bytes })?;
    }
    Ok(FolderMem::new(alloc, made, Vec::new(alloc), None)?)
}

fn pour_standing(
    folder: &mut FolderMem,
    from: &str,
    to: &str,
    buffer: &mut [u8],
) -> Result<(), Fail>
    requires whole { IsWhole (world_of folder.old) }
    requires apart { bytes_eq to.now from.now ≡ false }
    requires room { 0 < length buffer.old }
    ensures { IsWhole (world_of folder.new) }
{
    if is_there(folder, from)? && is_there(folder, to)? {
        pour(folder, from, to, buffer)?;
    }
    Ok(())
}

#[test]
fn files_are_compared_and_copied_through_a_small_buffer(rt: HostRuntime) -> Result<(), Fail> {
    let alloc = rt.alloc();
    let mut buffer = [0; 3];
    for (bytes, wanted) in [
        ("seven b", true),
        ("seven c", false),
        ("eleven b", false),
        ("seven", false),
        ("", false),
    ] {
        let mut folder = folder_of(alloc, &[("a", "seven b"), ("b", "to ")])?;
        let held = holds(&mut folder, "a", bytes.as_bytes(), &mut buffer);
        assert_eq!(rt; held, Ok(wanted), "{bytes}");
        assert_eq!(rt;
            holds(&mut folder, "c", bytes.as_bytes(), &mut buffer),
            Ok(false)
        );
        pour_standing(&mut folder, "a", "b", &mut buffer)?;
        assert_eq!(rt;
            listed(alloc, &mut folder)?.as_str(),
            "a=seven b b=to seven b "
        );
    }
    Ok(())
}

#[test]
fn names_are_removed(rt: HostRuntime) -> Result<(), Fail> {
    let alloc = rt.alloc();
    let mut folder = folder_of(
        alloc,
        &[("a", "old"), ("a.1", "x"), ("a.10", "y"), ("b", "")],
    )?;
    sweep(alloc, &mut folder, "a.1")?;
    assert_eq!(rt; drop_name(&mut folder, "b"), Ok(true));
    assert_eq!(rt; drop_name(&mut folder, "b"), Ok(false));
    assert_eq!(rt; listed(alloc, &mut folder)?.as_str(), "a=old ");
    Ok(())
}

#[test]
fn a_file_is_replaced(rt: HostRuntime) -> Result<(), Fail> {
    let alloc = rt.alloc();
    let mut folder = folder_of(alloc, &[("a", "old")])?;
    drop_name(&mut folder, "a.new")?;
    replace(&mut folder, "a.new", "a", b"new bytes")?;
    assert_eq!(rt; listed(alloc, &mut folder)?.as_str(), "a=new bytes ");
    let mut other = folder_of(alloc, &[("a", "old")])?;
    settle(&mut other)?;
    assert_eq!(rt; size_of(&mut other, "a"), Ok(Some(3)));
    assert_eq!(rt; new_buffer(alloc)?.len(), 131_072);
    Ok(())
}
