//! A value that is lent, or was made when it was asked for.
ghost use Rattle.std.specs.Prelude.{◌≡◌, IfOk};
ghost use Rattle.std.specs.Option.{option_map};
ghost use Rattle.info_tree.specs.Plain.{plain};
ghost use Rattle.info_item.specs.Found.{tree_of};

use info_tree::Tree;
use std::alloc::Global;
use text_base::OutOfMemory;

/// A value that is lent, or was made when it was asked for.
#[derive(Drop)]
pub enum Found<'a> {
    Lent(&'a Tree),
    Made(Tree),
}

impl<'a> Found<'a> {
    /// A value that is lent, where there is one.
    pub fn lend(tree: Option<&'a Tree>) -> Option<Found<'a>>
        ensures { option_map tree_of result ≡ option_map (λ t. plain t.now) tree.entry }
    {
        match tree {
            Some(tree) => Some(Found::Lent(tree)),
            None => None,
        }
    }

    pub fn tree(&self) -> &Tree
        ensures { plain result.now ≡ tree_of self.now }
    {
        match self {
            Found::Lent(tree) => *tree,
            Found::Made(tree) => tree,
        }
    }

    /// The value as one of its own.
    pub fn made(self, alloc: Global) -> Result<Tree, OutOfMemory>
        ensures { IfOk result (λ t. plain t ≡ tree_of self.entry) }
    {
        match self {
            Found::Lent(tree) => tree.copy(alloc),
            Found::Made(tree) => Ok(tree),
        }
    }
}
