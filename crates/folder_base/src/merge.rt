//! Parts that are back become one with the rest.
ghost use Rattle.std.specs.Prelude.{◌≡◌, []};
ghost use Rattle.folder_base.specs.Lines.{start, HasOwn};
ghost use Rattle.folder_base.specs.Merge.{HasPlaces, Merges};
ghost use Rattle.folder_base.specs.Steps.{Agrees};
ghost use Rattle.folder_base.specs.Tale.{all_handed, still_out};
ghost use Rattle.folder_base.specs.declared.side.Side.TheVariants.{Rest};

use crate::files::Files;
use crate::log::Log;
use crate::place::Place;
use crate::places::{copy_places, remove_places, take_steps};
use crate::step::Step;
use std::alloc::Global;
use std::mem;
use text_base::OutOfMemory;

/// Puts the files in the places among those of the rest, and ends the round.
pub(crate) fn merge(
    alloc: Global,
    log: &mut Log,
    steps: &mut Vec<Step>,
    files: &mut Files,
    places: &mut Vec<Place>,
) -> Result<(), OutOfMemory>
    requires agrees { Agrees (start log.old Rest) steps.old.items files.old }
    requires own { HasOwn log.old Rest files.old }
    requires placed { HasPlaces log.old places.old }
    requires back { still_out places.old.items (all_handed log.old) ≡ [] }
    ensures { Merges log.old steps.old.items places.old files.old log.new steps.new.items
        places.new files.new result }
{
    log.rounds.reserve(1)?;
    let mut parts = Vec::with_capacity(alloc, places.len())?;
    match copy_places(alloc, places, files) {
        Ok(()) => {
            take_steps(alloc, places, &mut parts);
            let rest = mem::replace(steps, Vec::new(alloc));
            log.close(alloc, rest, parts);
            Ok(())
        }
        Err(refused) => {
            remove_places(places, files);
            Err(refused)
        }
    }
}
