//! A component's turn.
ghost use Rattle.std.specs.Prelude.{◌≡◌, ◌≤◌, ◌<◌, IsTrue, take, drop, vec_len};
ghost use Rattle.folder_base.specs.Story.{IsWhole};
ghost use Rattle.component_turn.specs.Component.{workers_for};
ghost use Rattle.component_turn.specs.Turned.{Turned};

use crate::component::Component;
use crate::component_end::ComponentEnd;
use crate::judging::judge;
use crate::pieces::fetch_pieces;
use crate::settings::Settings;
use component_store::Begun;
use folder_base::{Folder, StoreFault};
use folder_steps::settle;
use link_http::Dialer;
use std::alloc::Global;
use std::thread::Threads;

/// Makes a component: begins it, fetches its pieces, and puts them together. One that is complete already
/// is whole, and nothing is asked for it.
///
/// Never more workers are started than it has pieces; the first dialers are used, one a worker. Where a
/// piece failed by the folder, or for want of memory, that is the answer, though the settle behind the
/// crew be refused too.
pub fn make_component<R: Threads + Sync, F: Folder + Drop + Send, D: Dialer + Send>(
    rt: &R,
    alloc: Global,
    folder: &mut F,
    dialers: &mut Vec<D>,
    component: &Component,
    settings: Settings,
) -> Result<ComponentEnd, StoreFault>
    requires whole { IsTrue (F.world folder.old).tells → IsWhole (F.world folder.old) }
    requires workers { (0 < settings.workers) × (settings.workers ≤ 32) × (settings.workers ≤ vec_len dialers.old) }
    requires retries { settings.retries ≤ 1000 }
    ensures turned { Turned D.wire component.now settings (F.world folder.old) (F.world folder.new) result
        (take (workers_for component.now settings) dialers.old.items)
        (take (workers_for component.now settings) dialers.new.items) }
    ensures dialers { vec_len dialers.new ≡ vec_len dialers.old }
    ensures idle { drop (workers_for component.now settings) dialers.new.items
        ≡ drop (workers_for component.now settings) dialers.old.items }
{
    let target = &component.target;
    let begun = target.begin(alloc, folder, component.plan.as_str(), settings.fresh)?;
    if let Begun::Complete = begun {
        return Ok(ComponentEnd::Whole);
    }
    settle(folder)?;
    let workers = settings.workers.min(component.pieces.len());
    let ends = fetch_pieces(
        rt,
        alloc,
        folder,
        dialers,
        component,
        workers,
        settings.retries,
    )?;
    let settled = settle(folder);
    let end = judge(ends.as_slice())?;
    settled?;
    if let ComponentEnd::Failed { .. } = end {
        return Ok(end);
    }
    target.assemble(alloc, folder)?;
    Ok(ComponentEnd::Whole)
}
