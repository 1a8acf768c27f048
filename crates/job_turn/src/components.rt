//! Makes the components of a job.
ghost use Rattle.std.specs.Prelude.{◌≡◌, ◌≤◌, ◌<◌, IsTrue, All, vec_len};
ghost use Rattle.folder_base.specs.Story.{IsWhole};
ghost use Rattle.job_turn.specs.Components.{OneMade, Makes, retries_for};
ghost use Rattle.job_turn.specs.Job.{HasPieces, AreSettings};

use crate::end::{Stop, component_answer};
use crate::settings::Settings;
use component_turn::{
    Component as Making, ComponentEnd, Settings as MakingSettings, make_component,
};
use folder_base::{Folder, StoreFault};
use job_plan::Component;
use link_http::Dialer;
use std::alloc::Global;
use std::thread::Threads;

/// How often a piece is tried again.
fn retries_for(settings: Settings, fragments: bool) -> u32
    ensures { result ≡ retries_for fragments settings }
{
    if fragments {
        settings.fragment_retries
    } else {
        settings.retries
    }
}

/// Makes a component.
fn make_one<R: Threads + Sync, F: Folder + Drop + Send, D: Dialer + Send>(
    rt: &R,
    alloc: Global,
    folder: &mut F,
    dialers: &mut Vec<D>,
    component: Component,
    is_final: bool,
    settings: Settings,
) -> Result<ComponentEnd, StoreFault>
    requires whole { IsTrue (F.world folder.old).tells → IsWhole (F.world folder.old) }
    requires settings { AreSettings settings (vec_len dialers.old) }
    requires pieces { HasPieces component }
    ensures made { OneMade D.wire is_final settings component (F.world folder.old) (F.world folder.new)
        result dialers.old.items dialers.new.items }
    ensures dialers { vec_len dialers.new ≡ vec_len dialers.old }
{
    let Component {
        name,
        pieces,
        fragments,
    } = component;
    let making_settings = MakingSettings {
        fresh: settings.fresh,
        workers: settings.workers,
        retries: retries_for(settings, fragments),
    };
    let Ok(making) = Making::new(alloc, name.as_str(), pieces, is_final) else {
        return Err(StoreFault::OutOfMemory);
    };
    make_component(rt, alloc, folder, dialers, &making, making_settings)
}

/// Makes the components of a job in order, up to the first that does not come to be whole.
pub(crate) fn make_all<R: Threads + Sync, F: Folder + Drop + Send, D: Dialer + Send>(
    rt: &R,
    alloc: Global,
    folder: &mut F,
    dialers: &mut Vec<D>,
    components: Vec<Component>,
    is_final: bool,
    settings: Settings,
) -> Result<(), Stop>
    requires whole { IsTrue (F.world folder.old).tells → IsWhole (F.world folder.old) }
    requires settings { AreSettings settings (vec_len dialers.old) }
    requires pieces { All HasPieces components.items }
    ensures made { Makes D.wire is_final settings 0 components.items (F.world folder.old) (F.world folder.new)
        result dialers.old.items dialers.new.items }
    ensures dialers { vec_len dialers.new ≡ vec_len dialers.old }
{
    for (number, component) in components.into_iter().enumerate() {
        let made = make_one(rt, alloc, folder, dialers, component, is_final, settings);
        component_answer(number, made)?;
    }
    Ok(())
}
