//! A job's turn.
ghost use Rattle.std.specs.Prelude.{◌≡◌, ◌<◌, ◌≤◌, ◌^◌, true, IfOk, codes, length, vec_len};
ghost use Rattle.component_turn.specs.Plan.{line_of};
ghost use Rattle.folder_base.specs.Memory.{world_of};
ghost use Rattle.folder_base.specs.Story.{IsWhole};
ghost use Rattle.job_turn.specs.Job.{HasPieces, IsReady};
ghost use Rattle.plan_record.specs.Plan.{is_line, is_without};

use folder_base::{Folder, FolderMem};
use info_item::Combo;
use job_pieces::Component;
use job_plan::Job;
use job_turn::{JobEnd, Settings, turn_job};
use link_http::{DialerMem, Page, Piece};
use std::alloc::Global;
use std::process::Abort;
use std::test::Fail;
use std::thread::Threads;
use text_base::Text;
use tool_chain::ToolsMem;

/// The piece of this URL, which has no LF.
fn piece_of(alloc: Global, url: &str) -> Result<Piece, Fail>
    requires { is_without 10 url.now ≡ true }
    ensures { IfOk result (λ piece. is_line (line_of piece) ≡ true) }
{
    Ok(Piece {
        url: Text::new(alloc, url)?,
        headers: Vec::new(alloc),
    })
}

/// A component of one piece, that is its job's file.
fn component_of(alloc: Global) -> Result<Component, Fail>
    ensures named { IfOk result (λ component. component.name ≡ codes "v.mp4") }
    ensures pieces { IfOk result HasPieces }
{
    let piece = piece_of(alloc, "http://h/v")?;
    Ok(Component {
        name: Text::new(alloc, "v.mp4")?,
        pieces: vec![in alloc; piece]?,
        fragments: false,
    })
}

/// A job whose file is fetched as it is.
#[tactic(auto, using(crate::proofs::ReadyLemmas::ready))]
fn job_of(alloc: Global) -> Result<Job, Fail>
    ensures { IfOk result IsReady }
{
    let component = component_of(alloc)?;
    let ext = Text::new(alloc, "mp4")?;
    let final_name = Text::new(alloc, "v.mp4")?;
    let parts = vec![in alloc; 0usize]?;
    let components = vec![in alloc; component]?;
    Ok(Job {
        item: 0,
        combo: Combo { parts, ext },
        final_name,
        components,
        steps: Vec::new(alloc),
        execs: Vec::new(alloc),
        printed: Vec::new(alloc),
    })
}

/// A dialer for the page of the piece.
fn dialer_of(alloc: Global) -> Result<DialerMem, Fail> {
    let page = Page {
        url: Text::new(alloc, "http://h/v")?,
        bytes: b"abcde".as_slice().to_vec(alloc)?,
    };
    Ok(DialerMem::new(alloc, vec![in alloc; page]?, Vec::new(alloc))?)
}

/// The job's turn, with one worker and one try.
fn turn(
    rt: &(impl Threads + Sync),
    alloc: Global,
    folder: &mut FolderMem,
    dialers: &mut Vec<DialerMem>,
    tools: &mut ToolsMem,
) -> Result<JobEnd, Fail>
    requires whole { IsWhole (world_of folder.old) }
    requires dialers { 1 ≤ vec_len dialers.old }
    ensures whole { IsWhole (world_of folder.new) }
    ensures dialers { vec_len dialers.new ≡ vec_len dialers.old }
{
    let job = job_of(alloc)?;
    let settings = Settings {
        fresh: false,
        keep: false,
        workers: 1,
        retries: 0,
        fragment_retries: 0,
    };
    let Ok(end) = turn_job(rt, alloc, folder, dialers, tools, job, settings) else {
        return Err(Fail::from("a fault"));
    };
    Ok(end)
}

#[test]
fn a_job_is_done_and_is_done_already_then(rt: HostRuntime) -> Result<(), Fail> {
    let alloc = rt.alloc();
    let mut folder = FolderMem::new(alloc, Vec::new(alloc), Vec::new(alloc), None)?;
    let mut dialers = vec![in alloc; dialer_of(alloc)?]?;
    let mut tools = ToolsMem::new(alloc, Vec::new(alloc))?;
    let end = turn(&rt, alloc, &mut folder, &mut dialers, &mut tools)?;
    assert!(rt; end == JobEnd::Done);
    let end = turn(&rt, alloc, &mut folder, &mut dialers, &mut tools)?;
    assert!(rt; end == JobEnd::Already);
    let asked = dialers.first().map(|dialer| dialer.asked().len());
    assert!(rt; asked == Some(1));
    let Ok(size) = folder.size("v.mp4") else {
        return Err(Fail::from("no size"));
    };
    assert!(rt; size == Some(5));
    Ok(())
}
