ghost use Rattle.std.specs.Prelude.{◌≡◌, IfOk};
ghost use Rattle.info_tree.specs.Plain.{plain};

use crate::tree::{Tree, TreeList, TreeMap};
use std::alloc::Global;
use text_base::{OutOfMemory, Text};

impl Tree {
    /// A tree of the same pairs, texts and numbers.
    #[cycle(copy)]
    pub fn copy(&self, alloc: Global) -> Result<Tree, OutOfMemory>
        ensures { IfOk result (λ t. plain t ≡ plain self.now) }
    {
        match self {
            Tree::Null => Ok(Tree::Null),
            Tree::Bool(value) => Ok(Tree::Bool(*value)),
            Tree::Num(num) => Ok(Tree::Num(*num)),
            Tree::Text(text) => Ok(Tree::Text(Text::new(alloc, text.as_str())?)),
            Tree::List(list) => Ok(Tree::List(copy_list(alloc, list)?)),
            Tree::Map(map) => Ok(Tree::Map(copy_map(alloc, map)?)),
        }
    }
}

#[cycle(copy)]
fn copy_list(alloc: Global, list: &TreeList) -> Result<TreeList, OutOfMemory>
    ensures { IfOk result (λ l. l ≡ list.now) }
{
    let mut copied = TreeList::with_capacity(alloc, list.len())?;
    for place in 0..list.len() {
        let Some(tree) = list.get(place) else {
            break;
        };
        copied.push(tree.copy(alloc)?)?;
    }
    Ok(copied)
}

#[cycle(copy)]
fn copy_map(alloc: Global, map: &TreeMap) -> Result<TreeMap, OutOfMemory>
    ensures { IfOk result (λ m. m ≡ map.now) }
{
    let mut copied = TreeMap::new(alloc);
    for place in 0..map.len() {
        let Some((key, tree)) = map.pair(place) else {
            break;
        };
        copied.put(Text::new(alloc, key)?, tree.copy(alloc)?)?;
    }
    Ok(copied)
}
