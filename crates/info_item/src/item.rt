ghost use Rattle.std.specs.Prelude.{◌≡◌};
ghost use Rattle.info_tree.specs.Plain.{plain};

use crate::format::Format;
use info_tree::Tree;
use std::marker::Model;
use text_base::Text;

/// An item of an information file.
#[derive(Drop)]
pub struct Item<'a> {
    tree: &'a Tree,
    id: Text,
    line: Text,
    formats: Vec<Format<'a>>,
}

impl<'a> Model for Item<'a> {
    ghost use Rattle.info_item.specs.Item.{Item as Plain, coded_item};

    ghost Value = { Plain };

    ghost coded = { coded_item };

    ghost use Rattle.info_tree.specs.Plain.{plain};

    ghost view = { λ a. record {
      tree = plain a.tree.now;
      id = a.id;
      line = a.line;
      formats = a.formats.items;
    } };
}

impl<'a> Item<'a> {
    pub(crate) fn new(tree: &'a Tree, id: Text, line: Text, formats: Vec<Format<'a>>) -> Item<'a>
        ensures { result ≡ record {
          tree = plain tree.entry.now;
          id = id;
          line = line;
          formats = formats.entry.items;
        } }
    {
        Item {
            tree,
            id,
            line,
            formats,
        }
    }

    /// The text that the site knows the item by.
    pub fn id(&self) -> &str
        ensures { result.now ≡ self.now.id }
    {
        self.id.as_str()
    }

    /// The item's line in an archive.
    pub fn line(&self) -> &str
        ensures { result.now ≡ self.now.line }
    {
        self.line.as_str()
    }

    /// The formats in the order of the file.
    pub fn formats(&self) -> &Vec<Format<'a>>
        ensures { result.now.items ≡ self.now.formats }
    {
        &self.formats
    }

    /// The map that the item was read from.
    pub fn tree(&self) -> &Tree
        ensures { plain result.now ≡ self.now.tree }
    {
        self.tree
    }
}
