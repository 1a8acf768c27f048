//! The files of parts that are back.
ghost use Rattle.std.specs.Prelude.{◌≡◌, ◌++◌, ◌+◌, ◌≤◌, [], false, None, OnOk, map, length, vec_len, vec_capacity, if◌then◌else◌};
ghost use Rattle.folder_base.specs.Disk.{Name};
ghost use Rattle.folder_base.specs.Files.{names_of};
ghost use Rattle.folder_base.specs.Places.{stands_in, all_over, steps_in};

use crate::files::{Files, copy_all, remove_all};
use crate::place::Place;
use crate::step::Step;
use std::alloc::Global;
use std::mem;
use text_base::OutOfMemory;

/// Puts copies of all files in these places among `files`.
pub(crate) fn copy_places(
    alloc: Global,
    places: &Vec<Place>,
    files: &mut Files,
) -> Result<(), OutOfMemory>
    ensures ok { OnOk result
        (names_of files.new ≡ all_over places.now.items (names_of files.old)) }
    ensures others { (name : Name) → stands_in places.now.items name ≡ false
        → names_of files.new name ≡ names_of files.old name }
{
    for place in places {
        copy_all(alloc, &place.files, files)?;
    }
    Ok(())
}

/// Removes from `files` all names that stand in these places.
pub(crate) fn remove_places(places: &Vec<Place>, files: &mut Files)
    ensures { names_of files.new ≡ (λ name. if stands_in places.now.items name then None
        else names_of files.old name) }
{
    for place in places {
        remove_all(&place.files, files);
    }
}

/// Empties the places. Their steps go into a list that has room for them.
pub(crate) fn take_steps(alloc: Global, places: &mut Vec<Place>, lists: &mut Vec<Vec<Step>>)
    requires { vec_len lists.old + vec_len places.old ≤ vec_capacity lists.old }
    ensures taken { map (λ steps. steps.items) lists.new.items ≡ map (λ steps. steps.items) lists.old.items ++ steps_in places.old.items }
    ensures emptied { places.new.items ≡ [] }
{
    for place in mem::replace(places, Vec::new(alloc)) {
        let _ = lists.push(place.steps);
    }
}
