ghost use Rattle.std.specs.Prelude.{◌≡◌, ◌<◌, vec_len, slice_set, length, slice_get, OnOk, OnErr, []};
ghost use Rattle.std.specs.Option.{option_map};
ghost use Rattle.info_tree.specs.Plain.{plain};
ghost use Rattle.info_tree.specs.Pairs.{value_at, put, HaveDistinctKeys};

use crate::keys::Keys;
use crate::tree::Tree;
use std::alloc::Global;
use std::marker::Model;
use text_base::{OutOfMemory, Text};

/// The pairs of a map: keys, and beside each its tree.
#[cycle(tree)]
#[derive(Drop)]
pub struct Members {
    keys: Keys,
    values: Vec<Tree>,
}

impl Model for Members {
    ghost use Rattle.std.specs.Prelude.{◌≡◌, ◌*◌, ℕ, List, map, length};
    ghost use Rattle.std.specs.List.{zip};
    ghost use Rattle.info_tree.specs.Tree.{Tree as Plain, pairs_of, pairs_size};
    ghost use Rattle.info_tree.specs.TreeCode.{coded_pairs};

    ghost Value = { List (List ℕ × Plain) };

    ghost coded = { coded_pairs };

    ghost use Rattle.info_tree.specs.Plain.{plain};

    ghost view = { λ a. zip a.keys (map plain a.values.items) };

    ghost invariant = { λ a. length a.keys ≡ length a.values.items };

    ghost size = { λ ps. 2 * pairs_size (pairs_of ps) };

    ghost use Rattle.info_tree.specs.Falls.{depth_le-pairs_size};

    ghost size_decreases = { λ a h. depth_le-pairs_size a.keys a.values.items h };
}

impl Members {
    pub fn new(alloc: Global) -> Members
        ensures { result ≡ [] }
    {
        Members {
            keys: Keys::new(alloc),
            values: Vec::new(alloc),
        }
    }

    /// How many pairs there are, no two of which have the same key.
    pub fn len(&self) -> usize
        ensures len { result ≡ length self.now }
        ensures distinct { HaveDistinctKeys self.now }
    {
        self.keys.len()
    }

    pub fn get(&self, key: &str) -> Option<&Tree>
        ensures value { option_map (λ t. plain t.now) result ≡ value_at self.now key.now }
        ensures distinct { HaveDistinctKeys self.now }
    {
        let place = self.keys.place_of(key)?;
        value(&self.values, place)
    }

    /// The pair at a place.
    pub fn pair(&self, place: usize) -> Option<(&str, &Tree)>
        ensures { option_map (λ p. (p.0.now, plain p.1.now)) result ≡ slice_get self.now place }
    {
        let key = self.keys.get(place)?;
        let tree = value(&self.values, place)?;
        Some((key, tree))
    }

    /// Puts a tree under a key: a key that is there keeps its place.
    pub fn put(&mut self, key: Text, tree: Tree) -> Result<(), OutOfMemory>
        ensures ok { OnOk result (self.new ≡ put self.old key (plain tree)) }
        ensures err { OnErr result (self.new ≡ self.old) }
        ensures distinct { HaveDistinctKeys self.old }
    {
        match self.keys.place_of(key.as_str()) {
            Some(place) => {
                replace(&mut self.values, place, tree);
                Ok(())
            }
            None => {
                self.values.push(tree)?;
                if self.keys.put_last(key).is_err() {
                    let _ = self.values.pop();
                    return Err(OutOfMemory);
                }
                Ok(())
            }
        }
    }
}

fn value(values: &Vec<Tree>, place: usize) -> Option<&Tree>
    ensures { option_map (λ t. plain t.now) result ≡ option_map plain (slice_get values.now.items place) }
{
    values.get(place)
}

fn replace(values: &mut Vec<Tree>, place: usize, tree: Tree)
    requires { place < vec_len values.old }
    ensures { values.new.items ≡ slice_set values.old.items place tree }
{
    values[place] = tree;
}
