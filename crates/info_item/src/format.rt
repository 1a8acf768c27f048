ghost use Rattle.std.specs.Prelude.{◌≡◌, IfOk};
ghost use Rattle.std.specs.Option.{option_map};
ghost use Rattle.text_base.specs.Number.{number_of};
ghost use Rattle.info_tree.specs.Plain.{plain};
ghost use Rattle.info_item.specs.Fields.{ext_of, has_video_of, has_audio_of, number_of_field, text_of_field, protocol_of, written_id_of};

use crate::keys::{is_missing, number_at, text_at, text_within};
use crate::protocol::derived_protocol;
use info_tree::Tree;
use std::alloc::Global;
use std::marker::Model;
use text_base::{Num, NumField, OutOfMemory, Text, TextField};

/// A format of an item: one file, or one stream of fragments, that it can be had as.
#[derive(Drop)]
pub struct Format<'a> {
    tree: &'a Tree,
    id: Text,
    /// What the `url` tells, where the key `protocol` is absent.
    protocol: Option<Text>,
}

impl<'a> Model for Format<'a> {
    ghost use Rattle.std.specs.Prelude.{◌≡◌};
    ghost use Rattle.info_item.specs.Item.{Format as Plain, coded_format};

    ghost Value = { Plain };

    ghost coded = { coded_format };

    ghost use Rattle.info_tree.specs.Plain.{plain};
    ghost use Rattle.info_item.specs.Fields.{derived_protocol};

    ghost view = { λ a. record { tree = plain a.tree.now; id = a.id } };

    ghost invariant = { λ a. a.protocol ≡ derived_protocol (plain a.tree.now) };
}

impl<'a> Format<'a> {
    pub(crate) fn new(alloc: Global, tree: &'a Tree, id: Text) -> Result<Format<'a>, OutOfMemory>
        ensures { IfOk result (λ f. f ≡ record { tree = plain tree.now; id = id }) }
    {
        let protocol = derived_protocol(alloc, tree)?;
        Ok(Format { tree, id, protocol })
    }

    /// The text that the user names the format by.
    pub fn id(&self) -> &str
        ensures { result.now ≡ self.now.id }
    {
        self.id.as_str()
    }

    /// The file name extension: the text `ext`, or `unknown_video`.
    pub fn ext(&self) -> &str
        ensures { result.now ≡ ext_of self.now.tree }
    {
        match text_at(self.tree, "ext") {
            Some(ext) => ext,
            None => "unknown_video",
        }
    }

    /// Whether it has a video stream: its `vcodec` is not the text `none`.
    pub fn has_video(&self) -> bool
        ensures { result ≡ has_video_of self.now.tree }
    {
        !is_missing(self.tree, "vcodec")
    }

    /// Whether it has an audio stream: its `acodec` is not the text `none`.
    pub fn has_audio(&self) -> bool
        ensures { result ≡ has_audio_of self.now.tree }
    {
        !is_missing(self.tree, "acodec")
    }

    /// The number of a field, where it is known.
    pub fn number(&self, field: NumField) -> Option<Num>
        ensures { option_map number_of result ≡ number_of_field self.now.tree field }
    {
        number_at(self.tree, field.key())
    }

    /// The text of a field, where it is known.
    pub fn text(&self, field: TextField) -> Option<&str>
        ensures { option_map (λ t. t.now) result ≡ text_of_field self.now field }
    {
        match field {
            TextField::Ext => Some(self.ext()),
            TextField::Protocol => self.protocol(),
            TextField::FormatId => self.written_id(),
            _ => text_at(self.tree, field.key()),
        }
    }

    /// The map that the format was read from.
    pub fn tree(&self) -> &Tree
        ensures { plain result.now ≡ self.now.tree }
    {
        self.tree
    }

    /// The text `protocol`, or what the `url` tells where that key is absent.
    fn protocol(&self) -> Option<&str>
        ensures { option_map (λ t. t.now) result ≡ protocol_of self.now.tree }
    {
        match self.tree.get("protocol") {
            Some(tree) => tree.as_text(),
            None => text_within(&self.protocol),
        }
    }

    /// The id, where the key `format_id` is there.
    fn written_id(&self) -> Option<&str>
        ensures { option_map (λ t. t.now) result ≡ written_id_of self.now }
    {
        match self.tree.get("format_id") {
            Some(_) => Some(self.id.as_str()),
            None => None,
        }
    }
}
