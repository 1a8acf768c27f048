//! What templates are filled from.
ghost use Rattle.std.specs.Prelude.{◌≡◌, IfOk};
ghost use Rattle.std.specs.Option.{option_map};
ghost use Rattle.info_tree.specs.Tree.{Tree as Plain, mapping, pairs_of};
ghost use Rattle.info_tree.specs.Plain.{plain};
ghost use Rattle.info_tree.specs.Pairs.{member};
ghost use Rattle.info_item.specs.Found.{tree_of};
ghost use Rattle.info_item.specs.View.{is_mapping};

use crate::found::Found;
use crate::lazy::View;
use info_tree::Tree;
use std::alloc::Global;
use text_base::OutOfMemory;

/// What stands under keys, and the whole that they stand in: a tree, or a view of an item.
pub trait Values {
    /// The whole.
    ghost tree: { Self → Plain };

    /// The value under a key. It is lent where the whole holds it, and made where it does not.
    fn get(&self, alloc: Global, key: &str) -> Result<Option<Found<'_>>, OutOfMemory>
        ensures { IfOk result (λ found. option_map tree_of found ≡ member (tree self.now) key.now) };

    /// Whether the whole is a map.
    fn is_map(&self) -> bool
        ensures { result ≡ is_mapping (tree self.now) };

    /// A copy of the whole.
    fn whole(&self, alloc: Global) -> Result<Tree, OutOfMemory>
        ensures { IfOk result (λ t. plain t ≡ tree self.now) };
}

impl Values for Tree {
    ghost tree = { λ t. plain t };

    fn get(&self, _alloc: Global, key: &str) -> Result<Option<Found<'_>>, OutOfMemory> {
        Ok(Found::lend(Tree::get(self, key)))
    }

    fn is_map(&self) -> bool {
        matches!(self, Tree::Map(_))
    }

    fn whole(&self, alloc: Global) -> Result<Tree, OutOfMemory> {
        self.copy(alloc)
    }
}

impl<'a> Values for View<'a> {
    ghost tree = { λ v. mapping (pairs_of v) };

    fn get(&self, alloc: Global, key: &str) -> Result<Option<Found<'_>>, OutOfMemory> {
        View::get(self, alloc, key)
    }

    fn is_map(&self) -> bool {
        true
    }

    fn whole(&self, alloc: Global) -> Result<Tree, OutOfMemory> {
        self.tree(alloc)
    }
}
