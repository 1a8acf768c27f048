ghost use Rattle.std.specs.Prelude.{◌≡◌, IfOk, codes};
ghost use Rattle.component_store.specs.Target.{component_of};
ghost use Rattle.folder_base.specs.Memory.{world_of};
ghost use Rattle.folder_base.specs.Story.{IsWhole};

use component_store::*;
use folder_base::{File, Folder, FolderMem, StoreFault};
use folder_steps::is_there;
use std::alloc::Global;
use std::test::Fail;
use text_base::Text;

const PLAN: &str = "ytdl-plan 1\n1\nu http://h/22\n";

const TWO: &str = "ytdl-plan 1\n2\nu http://h/0\nx\n";

/// A folder with these files, stopped at a call where one is given.
pub fn folder_with(
    alloc: Global,
    files: &[(&str, &[u8])],
    stop: Option<u64>,
) -> Result<FolderMem, Fail>
    ensures { IfOk result (λ folder. IsWhole (world_of folder)) }
{
    let mut made = Vec::new(alloc);
    for (name, bytes) in files {
        let name = Text::new(alloc, name)?;
        let bytes = Vec::from_slice(alloc, bytes)?;
        made.push(File { name, bytes })?;
    }
    Ok(FolderMem::new(alloc, made, Vec::new(alloc), stop)?)
}

// Each file that stands, with its first bytes.
fn listed(alloc: Global, folder: &mut FolderMem) -> Result<String, Fail>
    requires { IsWhole (world_of folder.old) }
{
    let mut listed = String::new(alloc);
    for name in &folder.names(alloc, "")? {
        let mut buf = [0; 64];
        let count = folder.read_at(name.as_str(), 0, &mut buf)?;
        listed.push_str(name.as_str())?;
        listed.push('=')?;
        listed.push_str(std::str::from_utf8(&buf[..count.min(64)])?)?;
        listed.push(' ')?;
    }
    Ok(listed)
}

// Begins a component beside which a record of these bytes stands, with pieces of that plan.
fn begun_beside(
    alloc: Global,
    record: &[u8],
    is_final: bool,
    fresh: bool,
) -> Result<(Begun, FolderMem), Fail>
    ensures { IfOk result (λ pair. IsWhole (world_of pair.1)) }
{
    let mut folder = folder_with(
        alloc,
        &[
            ("v", b"whole"),
            ("v.ytdl", record),
            ("v.ytdl.new", b"ytdl-pl"),
            ("v.part", b"j"),
            ("v.part-Frag0.@3", b"xyz"),
            ("v.part-FragX", b"o"),
        ],
        None,
    )?;
    let target = Target::new(alloc, "v", 1, is_final)?;
    let begun = target.begin(alloc, &mut folder, PLAN, fresh)?;
    Ok((begun, folder))
}

const ANEW: &str = "v.ytdl=ytdl-plan 1\n1\nu http://h/22\n ";

/// The record that stands, whether the component is final, whether it is begun afresh, the answer, and what stands then.
const BEGUN: [(&str, bool, bool, Begun, &str); 6] = [
    (
        "ytdl-plan 1\n1\nu http://h/old\n",
        false,
        false,
        Begun::Open,
        ANEW,
    ),
    ("ytdl-plan 1\n1\nx\n", false, false, Begun::Open, ANEW),
    ("not a record", false, false, Begun::Open, ANEW),
    (PLAN, false, true, Begun::Open, ANEW),
    (
        PLAN,
        false,
        false,
        Begun::Complete,
        "v=whole v.part=j v.part-Frag0.@3=xyz v.part-FragX=o v.ytdl=ytdl-plan 1\n1\nu http://h/22\n ",
    ),
    (
        "",
        true,
        false,
        Begun::Open,
        "v=whole v.ytdl=ytdl-plan 1\n1\nu http://h/22\n ",
    ),
];

#[test]
fn a_component_begins_under_its_own_record_alone(rt: HostRuntime) -> Result<(), Fail> {
    let alloc = rt.alloc();
    for (record, is_final, fresh, wanted, left) in &BEGUN {
        let (begun, mut folder) = begun_beside(alloc, record.as_bytes(), *is_final, *fresh)?;
        assert_eq!(rt; begun, *wanted, "{record}");
        assert_eq!(rt; listed(alloc, &mut folder)?.as_str(), *left, "{record}");
    }
    Ok(())
}

#[test]
fn a_record_that_was_cut_anywhere_is_none(rt: HostRuntime) -> Result<(), Fail> {
    let alloc = rt.alloc();
    let record = PLAN.as_bytes();
    for end in 0..record.len() {
        let (begun, mut folder) = begun_beside(alloc, &record[..end], false, false)?;
        assert_eq!(rt; begun, Begun::Open, "{end}");
        assert_eq!(rt; listed(alloc, &mut folder)?.as_str(), ANEW, "{end}");
    }
    Ok(())
}

#[test]
fn a_record_of_many_lines_is_another_plans(rt: HostRuntime) -> Result<(), Fail> {
    let alloc = rt.alloc();
    let mut record = String::from_str(alloc, "ytdl-plan 1\n20001\n")?;
    for _ in 0..20_001 {
        record.push_str("x\n")?;
    }
    let (begun, mut folder) = begun_beside(alloc, record.as_bytes(), false, false)?;
    assert_eq!(rt; begun, Begun::Open);
    assert_eq!(rt; listed(alloc, &mut folder)?.as_str(), ANEW);
    Ok(())
}

// Tidies a component beside which a file of this name stands, with a piece and a joined part.
fn tidied_beside(alloc: Global, name: &str, is_final: bool, keep: bool) -> Result<FolderMem, Fail>
    ensures { IfOk result (λ folder. IsWhole (world_of folder)) }
{
    let mut folder = folder_with(
        alloc,
        &[
            ("v", b"whole"),
            (name, b"r"),
            ("v.ytdl.new", b"s"),
            ("v.part", b"j"),
            ("v.part-Frag0", b"xyz"),
        ],
        None,
    )?;
    let target = Target::new(alloc, "v", 1, is_final)?;
    target.tidy(alloc, &mut folder, keep)?;
    Ok(folder)
}

/// A name that stands, whether the component is final, whether it is to be kept, and what stands then.
const TIDIED: [(&str, bool, bool, &str); 4] = [
    ("v.ytdl", false, false, ""),
    ("v.ytdl", true, false, "v=whole "),
    ("v.ytdl", false, true, "v=whole v.ytdl=r "),
    (
        "other",
        false,
        false,
        "other=r v=whole v.part=j v.part-Frag0=xyz v.ytdl.new=s ",
    ),
];

#[test]
fn a_component_is_tidied_where_its_record_stands(rt: HostRuntime) -> Result<(), Fail> {
    let alloc = rt.alloc();
    for (name, is_final, keep, left) in &TIDIED {
        let mut folder = tidied_beside(alloc, name, *is_final, *keep)?;
        assert_eq!(rt; listed(alloc, &mut folder)?.as_str(), *left, "{name}");
    }
    Ok(())
}

// Puts a component of two pieces together, where both are complete.
fn assemble_two(alloc: Global, folder: &mut FolderMem, target: &Target) -> Result<(), StoreFault>
    requires whole { IsWhole (world_of folder.old) }
    requires named { component_of target.now ≡ codes "v" }
    requires two { target.now.count ≡ 2 }
    ensures { IsWhole (world_of folder.new) }
{
    if is_there(folder, "v.part-Frag0")? && is_there(folder, "v.part-Frag1")? {
        target.assemble(alloc, folder)?;
    }
    Ok(())
}

// A component of two pieces, begun under its record, put together and tidied.
fn run_two(alloc: Global, folder: &mut FolderMem) -> Result<(), StoreFault>
    requires { IsWhole (world_of folder.old) }
    ensures { IsWhole (world_of folder.new) }
{
    let Ok(target) = Target::new(alloc, "v", 2, true) else {
        return Err(StoreFault::OutOfMemory);
    };
    if target.begin(alloc, folder, TWO, false)? == Begun::Open {
        assemble_two(alloc, folder, &target)?;
    }
    target.tidy(alloc, folder, false)
}

// A folder with a record of two pieces, and both of them.
fn two_pieces(alloc: Global, stop: Option<u64>) -> Result<FolderMem, Fail>
    ensures { IfOk result (λ folder. IsWhole (world_of folder)) }
{
    let files: [(&str, &[u8]); 4] = [
        ("v.ytdl", TWO.as_bytes()),
        ("v.part", b"of before"),
        ("v.part-Frag0", b"abc"),
        ("v.part-Frag1", b"de"),
    ];
    folder_with(alloc, &files, stop)
}

// The same, stopped, and run again over what was left.
fn two_after_stop(alloc: Global, stop: u64, kept: u64, fill: u8) -> Result<FolderMem, Fail>
    ensures { IfOk result (λ folder. IsWhole (world_of folder)) }
{
    let mut folder = two_pieces(alloc, Some(stop))?;
    let _ = run_two(alloc, &mut folder).is_ok();
    let mut left = folder.after_stop(alloc, kept, fill)?;
    run_two(alloc, &mut left)?;
    Ok(left)
}

#[test]
fn a_component_is_put_together_after_a_stop_at_each_call(rt: HostRuntime) -> Result<(), Fail> {
    let alloc = rt.alloc();
    for stop in 0..32 {
        for kept in 0..3 {
            for fill in [0, 255] {
                let mut folder = two_after_stop(alloc, stop, kept, fill)?;
                assert_eq!(rt;
                    listed(alloc, &mut folder)?.as_str(),
                    "v=abcde ",
                    "stop {stop}, kept {kept}"
                );
            }
        }
    }
    Ok(())
}

// A component is begun beside another plan's record, stopped, and begun again over what was left.
fn begun_after_stop(alloc: Global, stop: u64, kept: u64, fill: u8) -> Result<FolderMem, Fail>
    ensures { IfOk result (λ folder. IsWhole (world_of folder)) }
{
    let mut folder = two_pieces(alloc, Some(stop))?;
    let target = Target::new(alloc, "v", 1, false)?;
    let _ = target.begin(alloc, &mut folder, PLAN, false).is_ok();
    let mut left = folder.after_stop(alloc, kept, fill)?;
    target.begin(alloc, &mut left, PLAN, false)?;
    Ok(left)
}

#[test]
fn a_component_is_begun_after_a_stop_at_each_call(rt: HostRuntime) -> Result<(), Fail> {
    let alloc = rt.alloc();
    for stop in 0..22 {
        for kept in 0..4 {
            for fill in [0, 255] {
                let mut folder = begun_after_stop(alloc, stop, kept, fill)?;
                assert_eq!(rt;
                    listed(alloc, &mut folder)?.as_str(),
                    ANEW,
                    "stop {stop}, kept {kept}"
                );
            }
        }
    }
    Ok(())
}
