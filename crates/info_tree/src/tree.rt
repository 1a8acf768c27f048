ghost use Rattle.std.specs.Prelude.{◌≡◌, length, slice_get, IfOk, OnOk, OnErr, [], ◌∷◌, ◌++◌};
ghost use Rattle.std.specs.Option.{option_map};
ghost use Rattle.std.specs.String.{string_bytes};
ghost use Rattle.info_tree.specs.Plain.{plain};
ghost use Rattle.text_base.specs.Number.{number_of as value_of};
ghost use Rattle.info_tree.specs.Scalars.{text_of, number_of};
ghost use Rattle.info_tree.specs.Pairs.{value_at, put, member, item, HaveDistinctKeys};

use crate::members::Members;
use std::alloc::{AllocError, Global};
use std::marker::Model;
use text_base::{Num, OutOfMemory, Text};

#[cycle(tree)]
#[derive(Drop)]
pub enum Tree {
    Null,
    Bool(bool),
    Num(Num),
    Text(Text),
    List(TreeList),
    Map(TreeMap),
}

/// Trees in order.
#[cycle(tree)]
#[derive(Drop)]
pub struct TreeList {
    items: Vec<Tree>,
}

impl Model for TreeList {
    ghost use Rattle.std.specs.Prelude.{◌*◌, List, map};
    ghost use Rattle.info_tree.specs.Tree.{Tree as Plain, trees_of, trees_size};
    ghost use Rattle.info_tree.specs.TreeCode.{coded_trees};

    ghost Value = { List Plain };

    ghost coded = { coded_trees };

    ghost use Rattle.info_tree.specs.Plain.{plain};

    ghost view = { λ a. map plain a.items.items };

    ghost size = { λ ts. 2 * trees_size (trees_of ts) };

    ghost use Rattle.info_tree.specs.Falls.{depth_le-trees_size};

    ghost size_decreases = { λ a h. depth_le-trees_size a.items.items };
}

/// Trees under keys, in the order in which the keys came.
#[cycle(tree)]
#[derive(Drop)]
pub struct TreeMap {
    alloc: Global,
    /// Behind a pointer, so that the other trees are small.
    members: Option<Box<Members>>,
}

impl Model for TreeMap {
    ghost use Rattle.std.specs.Prelude.{◌*◌, ◌+◌, ℕ, List};
    ghost use Rattle.info_tree.specs.Tree.{Tree as Plain, pairs_of, pairs_size};
    ghost use Rattle.info_tree.specs.TreeCode.{coded_pairs};

    ghost Value = { List (List ℕ × Plain) };

    ghost coded = { coded_pairs };

    ghost use Rattle.info_tree.specs.Members.{members_of};

    ghost view = { λ a. members_of a.members };

    ghost size = { λ ps. 2 * pairs_size (pairs_of ps) + 1 };

    ghost use Rattle.info_tree.specs.Falls.{depth_le-members};

    ghost size_decreases = { λ a h. depth_le-members a };
}

impl TreeList {
    pub fn new(alloc: Global) -> TreeList
        ensures { result ≡ [] }
    {
        TreeList {
            items: Vec::new(alloc),
        }
    }

    /// An empty list with room for this many trees.
    pub fn with_capacity(alloc: Global, count: usize) -> Result<TreeList, OutOfMemory>
        ensures { IfOk result (λ list. list ≡ []) }
    {
        Ok(TreeList {
            items: Vec::with_capacity(alloc, count)?,
        })
    }

    pub fn len(&self) -> usize
        ensures { result ≡ length self.now }
    {
        self.items.len()
    }

    /// Puts a tree last.
    pub fn push(&mut self, tree: Tree) -> Result<(), AllocError>
        ensures ok { OnOk result (self.new ≡ self.old ++ plain tree ∷ []) }
        ensures err { OnErr result (self.new ≡ self.old) }
    {
        self.items.push(tree)?;
        Ok(())
    }

    pub fn get(&self, place: usize) -> Option<&Tree>
        ensures { option_map (λ t. plain t.now) result ≡ slice_get self.now place }
    {
        self.items.get(place)
    }
}

impl TreeMap {
    pub fn new(alloc: Global) -> TreeMap
        ensures { result ≡ [] }
    {
        TreeMap {
            alloc,
            members: None,
        }
    }

    /// How many pairs there are, no two of which have the same key.
    pub fn len(&self) -> usize
        ensures len { result ≡ length self.now }
        ensures distinct { HaveDistinctKeys self.now }
    {
        match &self.members {
            Some(members) => members.len(),
            None => 0,
        }
    }

    /// The value under a key. No two pairs have the same key.
    pub fn get(&self, key: &str) -> Option<&Tree>
        ensures value { option_map (λ t. plain t.now) result ≡ value_at self.now key.now }
        ensures distinct { HaveDistinctKeys self.now }
    {
        match &self.members {
            Some(members) => members.get(key),
            None => None,
        }
    }

    /// The pair at a place.
    pub fn pair(&self, place: usize) -> Option<(&str, &Tree)>
        ensures { option_map (λ p. (p.0.now, plain p.1.now)) result ≡ slice_get self.now place }
    {
        match &self.members {
            Some(members) => members.pair(place),
            None => None,
        }
    }

    /// Puts a tree under a key: a key that is there keeps its place.
    pub fn set(&mut self, key: String, tree: Tree) -> Result<(), OutOfMemory>
        ensures ok { OnOk result (self.new ≡ put self.old (string_bytes key) (plain tree)) }
        ensures err { OnErr result (self.new ≡ self.old) }
    {
        self.put(Text::from(key), tree)
    }

    /// The same under a key that is a `Text`.
    pub fn put(&mut self, key: Text, tree: Tree) -> Result<(), OutOfMemory>
        ensures ok { OnOk result (self.new ≡ put self.old key (plain tree)) }
        ensures err { OnErr result (self.new ≡ self.old) }
        ensures distinct { HaveDistinctKeys self.old }
    {
        let mut members = match self.members.take() {
            Some(members) => members,
            None => Box::new(self.alloc, Members::new(self.alloc))?,
        };
        let put = members.put(key, tree);
        self.members = Some(members);
        put
    }
}

impl Tree {
    /// The value under a key of a map.
    pub fn get(&self, key: &str) -> Option<&Tree>
        ensures { option_map (λ t. plain t.now) result ≡ member (plain self.now) key.now }
    {
        match self {
            Tree::Map(map) => map.get(key),
            _ => None,
        }
    }

    /// The tree at a place of a list.
    pub fn at(&self, place: usize) -> Option<&Tree>
        ensures { option_map (λ t. plain t.now) result ≡ item (plain self.now) place }
    {
        match self {
            Tree::List(list) => list.get(place),
            _ => None,
        }
    }

    /// The text that the tree is.
    pub fn as_text(&self) -> Option<&str>
        ensures { option_map (λ t. t.now) result ≡ text_of (plain self.now) }
    {
        match self {
            Tree::Text(text) => Some(text.as_str()),
            _ => None,
        }
    }

    /// The number that the tree is.
    pub fn as_number(&self) -> Option<Num>
        ensures { option_map value_of result ≡ number_of (plain self.now) }
    {
        match self {
            Tree::Num(number) => Some(*number),
            _ => None,
        }
    }
}
