ghost use Rattle.std.specs.Prelude.{◌≡◌, false, true, ◌&&◌, IfOk, OnOk, OnErr, bytes_eq, if◌then◌else◌};
ghost use Rattle.std.specs.List.{filter};
ghost use Rattle.name_listing.specs.Names.{has, Has, PutsSome, names_of, begins, is_part};

use std::alloc::{AllocError, Global};
use std::collections::BTreeSet;
use text_base::Text;

/// A set of names, in the order of their bytes.
#[derive(Drop)]
pub struct Names {
    alloc: Global,
    set: BTreeSet<String>,
}

impl Names {
    /// No names.
    pub fn new(alloc: Global) -> Names
        ensures { Has (λ _. false) result }
    {
        Names {
            alloc,
            set: BTreeSet::new(alloc),
        }
    }

    /// Whether a name is in the set.
    pub fn has(&self, name: &str) -> bool
        ensures { result ≡ has self.now name.now }
    {
        self.set.contains(name)
    }

    /// Puts a name into the set.
    pub fn put(&mut self, name: &str) -> Result<(), AllocError>
        ensures put { OnOk result (Has (λ other. if bytes_eq name.now other then true else has self.old other) self.new) }
        ensures same { OnErr result (Has (has self.old) self.new) }
    {
        let name = String::from_str(self.alloc, name)?;
        match self.set.insert(name) {
            Ok(_is_new) => Ok(()),
            Err(_refused) => Err(AllocError),
        }
    }

    /// Takes a name out of the set.
    pub fn take_away(&mut self, name: &str)
        ensures { Has (λ other. if bytes_eq name.now other then false else has self.old other) self.new }
    {
        self.set.remove(name);
    }

    /// The names that begin with `prefix`, in order.
    pub fn list(&self, alloc: Global, prefix: &str) -> Result<Vec<Text>, AllocError>
        ensures { IfOk result (λ list. list.items ≡ filter (begins prefix.now) (names_of self.now)) }
    {
        let mut list = Vec::new(alloc);
        let first = String::from_str(alloc, prefix)?;
        for name in self.set.range(first..) {
            if !name.as_str().starts_with(prefix) {
                return Ok(list);
            }
            list.push(Text::from(String::from_str(alloc, name.as_str())?))?;
        }
        Ok(list)
    }

    /// The names of the part with this stem: the stem, and what begins with it and a point.
    pub fn share(&self, stem: &str) -> Result<Names, AllocError>
        ensures { IfOk result (Has (λ name. is_part stem.now name && has self.now name)) }
    {
        let mut share = Names::new(self.alloc);
        let mut point = String::from_str(self.alloc, stem)?;
        point.push('.')?;
        let names = self.list(self.alloc, point.as_str())?;
        for name in &names {
            share.put(name.as_str())?;
        }
        if self.has(stem) {
            share.put(stem)?;
        }
        Ok(share)
    }

    /// Takes the names of a share out of the set.
    pub fn hand_out(&mut self, share: &Names)
        ensures { Has (λ name. if has share.now name then false else has self.old name) self.new }
    {
        for name in &share.set {
            self.take_away(name.as_str());
        }
    }

    /// Puts the names of a share into the set.
    pub fn take_in(&mut self, share: &Names) -> Result<(), AllocError>
        ensures put { OnOk result (Has (λ name. if has share.now name then true else has self.old name) self.new) }
        ensures some { OnErr result (PutsSome (has share.now) self.old self.new) }
    {
        for name in &share.set {
            self.put(name.as_str())?;
        }
        Ok(())
    }
}
