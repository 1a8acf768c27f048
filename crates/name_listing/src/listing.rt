ghost use Rattle.std.specs.Prelude.{◌≡◌, ◌⊎◌, option_map, None, Some, false, true, is_some, OnOk, OnErr, bytes_eq, if◌then◌else◌};
ghost use Rattle.name_listing.specs.Names.{Name, has};
ghost use Rattle.name_listing.specs.Listing.{known, Forgets, Notes, NotesAll};

use crate::names::Names;
use std::alloc::{AllocError, Global};
use std::collections::BTreeMap;

/// The names in the folders that were listed, as the calls since then have left them.
#[derive(Drop)]
pub struct Listing {
    alloc: Global,
    folders: BTreeMap<String, Names>,
}

impl Listing {
    /// No folder is known.
    pub fn new(alloc: Global) -> Listing
        ensures { (folder name : Name) → known result folder name ≡ None }
    {
        Listing {
            alloc,
            folders: BTreeMap::new(alloc),
        }
    }

    /// The names in a folder are just these.
    pub fn learn(&mut self, folder: &str, names: Names) -> Result<(), AllocError>
        ensures learnt { OnOk result ((other name : Name)
            → known self.new other name
            ≡ (if bytes_eq folder.now other then Some (has names name) else known self.old other name)) }
        ensures same { OnErr result ((other name : Name)
            → known self.new other name ≡ known self.old other name) }
    {
        let folder = String::from_str(self.alloc, folder)?;
        match self.folders.insert(folder, names) {
            Ok(_replaced) => Ok(()),
            Err(_refused) => Err(AllocError),
        }
    }

    /// The names in a folder are not known from here on.
    pub fn forget(&mut self, folder: &str)
        ensures { Forgets folder.now self.old self.new }
    {
        self.folders.remove(folder);
    }

    /// No names are known from here on.
    pub fn forget_all(&mut self)
        ensures { (folder name : Name) → known self.new folder name ≡ None }
    {
        self.folders.clear();
    }

    /// A name is in its folder. Where memory for it is refused the folder is forgotten.
    pub fn add(&mut self, folder: &str, name: &str)
        ensures { Notes folder.now name.now true self.old self.new ⊎ Forgets folder.now self.old self.new }
    {
        let Some(names) = self.folders.get_mut(folder) else {
            return;
        };
        if names.put(name).is_err() {
            self.folders.remove(folder);
        }
    }

    /// A name is not in its folder.
    pub fn take_away(&mut self, folder: &str, name: &str)
        ensures { Notes folder.now name.now false self.old self.new }
    {
        if let Some(names) = self.folders.get_mut(folder) {
            names.take_away(name);
        }
    }

    /// The names of a folder, where it is known.
    pub fn names(&self, folder: &str) -> Option<&Names>
        ensures { (name : Name) → known self.now folder.now name ≡ option_map (λ names. has names.now name) result }
    {
        self.folders.get(folder)
    }

    /// Takes the names of a share out of a folder.
    pub fn hand_out(&mut self, folder: &str, share: &Names)
        ensures { NotesAll folder.now (has share.now) false self.old self.new }
    {
        if let Some(names) = self.folders.get_mut(folder) {
            names.hand_out(share);
        }
    }

    /// Puts the names of a share into a folder. Where memory for them is refused the folder is
    /// forgotten.
    pub fn take_in(&mut self, folder: &str, share: &Names)
        ensures { NotesAll folder.now (has share.now) true self.old self.new ⊎ Forgets folder.now self.old self.new }
    {
        let Some(names) = self.folders.get_mut(folder) else {
            return;
        };
        if names.take_in(share).is_err() {
            self.folders.remove(folder);
        }
    }
}
