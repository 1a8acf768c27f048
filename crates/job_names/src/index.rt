//! The names of jobs, to find the first that a family meets.
ghost use Rattle.std.specs.Prelude.{◌≡◌, ℕ, List, OnOk, Some, None, bytes_eq, if◌then◌else◌};
ghost use Rattle.std.specs.Option.{option_or};
ghost use Rattle.job_names.specs.Index.{told, least, is_front_of};

use crate::family::is_piece_front;
use std::alloc::Global;
use std::collections::BTreeMap;
use text_base::{OutOfMemory, Text};

/// The names of jobs, each with the place of the first job that has it. No step over them is longer than a look-up.
#[derive(Drop)]
pub struct NameIndex<'a> {
    /// The exact names.
    pub(crate) exact: BTreeMap<&'a [u8], usize>,
    pub(crate) components: BTreeMap<&'a [u8], usize>,
    /// What would be a component where an exact name were that of a piece.
    pub(crate) under: BTreeMap<&'a [u8], usize>,
}

/// The lesser of two places, where there are any.
fn least(one: Option<usize>, other: Option<usize>) -> Option<usize>
    ensures { result ≡ least one other }
{
    match (one, other) {
        (Some(one), Some(other)) => Some(one.min(other)),
        (Some(one), None) => Some(one),
        (None, other) => other,
    }
}

/// The place that a map has for a name.
fn place_of(map: &BTreeMap<&[u8], usize>, name: &[u8]) -> Option<usize>
    ensures { result ≡ told map.now name.now }
{
    map.get(name).copied()
}

/// Puts a name with its place, unless it is there.
fn put_first<'a>(
    map: &mut BTreeMap<&'a [u8], usize>,
    name: &'a [u8],
    place: usize,
) -> Result<(), OutOfMemory>
    ensures { OnOk result ((other : List ℕ) → told map.new other
        ≡ option_or (told map.old other) (if bytes_eq other name.entry.now then Some place else None)) }
{
    if !map.contains_key(name) {
        map.insert(name, place)?;
    }
    Ok(())
}

/// Puts each front of a name that would be a component where the name were that of a piece.
fn put_fronts<'a>(
    map: &mut BTreeMap<&'a [u8], usize>,
    name: &'a [u8],
    place: usize,
) -> Result<(), OutOfMemory>
    ensures { OnOk result ((front : List ℕ) → told map.new front
        ≡ option_or (told map.old front) (if is_front_of name.entry.now front then Some place else None)) }
{
    for at in 0..name.len() {
        if is_piece_front(name, at) {
            put_first(map, &name[..at], place)?;
        }
    }
    Ok(())
}

impl<'a> NameIndex<'a> {
    ghost use Rattle.std.specs.Prelude.{◌≡◌, ◌++◌, ◌∷◌, [], OnOk};
    ghost use Rattle.job_names.specs.Family.{Names, exact_names, in_family, is_piece_of, meets};
    ghost use Rattle.job_names.specs.Index.{AreBelow, IsIndex, Log, first_with, has_exact};

    /// No names.
    pub fn new(alloc: Global) -> NameIndex<'a>
        ensures { IsIndex [] result }
    {
        NameIndex {
            exact: BTreeMap::new(alloc),
            components: BTreeMap::new(alloc),
            under: BTreeMap::new(alloc),
        }
    }

    /// The first job whose exact name this is.
    fn exact_at(&self, name: &[u8]) -> Option<usize>
        ensures { (log : Log) → IsIndex log self.now → result ≡ first_with (has_exact name.now) log }
    {
        place_of(&self.exact, name)
    }

    /// The first job that has a component of which this is the name of a piece.
    fn piece_at(&self, name: &[u8]) -> Option<usize>
        ensures { (log : Log) → IsIndex log self.now → result ≡ first_with (λ names. is_piece_of names.components name.now) log }
    {
        let mut first = None;
        for at in 0..name.len() {
            if is_piece_front(name, at) {
                first = least(first, place_of(&self.components, &name[..at]));
            }
        }
        first
    }

    /// The first job that an exact name of a family meets.
    fn name_at(&self, name: &[u8]) -> Option<usize>
        ensures { (log : Log) → IsIndex log self.now
            → result ≡ first_with (λ names. in_family names name.now) log }
    {
        least(self.exact_at(name), self.piece_at(name))
    }

    /// The first job that a family meets.
    pub fn first_met(&self, exact: &[Text], components: &[Text]) -> Option<usize>
        ensures { (log : Log) (names : Names) → IsIndex log self.now → exact.now ≡ exact_names names
            → components.now ≡ names.components → result ≡ first_with (λ earlier. meets earlier names) log }
    {
        let mut first = None;
        for name in exact {
            first = least(first, self.name_at(name.as_str().as_bytes()));
        }
        for component in components {
            first = least(first, place_of(&self.under, component.as_str().as_bytes()));
        }
        first
    }

    /// Adds the names of one more job, which stands behind all the others.
    pub fn add(
        &mut self,
        place: usize,
        exact: &'a [Text],
        components: &'a [Text],
    ) -> Result<(), OutOfMemory>
        ensures { (log : Log) (names : Names) → IsIndex log self.old → AreBelow place log → exact.entry.now ≡ exact_names names
            → components.entry.now ≡ names.components → OnOk result (IsIndex (log ++ (place, names) ∷ []) self.new) }
    {
        for name in exact {
            let name = name.as_str().as_bytes();
            put_first(&mut self.exact, name, place)?;
            put_fronts(&mut self.under, name, place)?;
        }
        for component in components {
            put_first(&mut self.components, component.as_str().as_bytes(), place)?;
        }
        Ok(())
    }
}
