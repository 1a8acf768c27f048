//! Which formats are chosen, and in which order.

ghost use Rattle.std.specs.Prelude.{◌≡◌};
ghost use Rattle.word_list.specs.Groups as spec;

use crate::entries::containers;
use crate::fault::{OptionFault, ValueFault};
use crate::values::selector;
use fmt_sort::SortWords;
use sel_eval::Streams;
use sel_lang::Sel;
use std::alloc::Global;

#[derive(Clone, Copy, Debug, PartialEq, Eq)]
pub enum ChoosingFlag {
    /// Whether the given sort fields come before all others.
    Force(bool),
    /// Whether extensions of free formats are preferred.
    Free(bool),
    /// Whether a merge may have several parts with video.
    VideoStreams(bool),
    /// Whether a merge may have several parts with audio.
    AudioStreams(bool),
}

#[derive(Clone, Copy, Debug, PartialEq, Eq)]
pub enum ChoosingValue {
    /// Which formats are chosen.
    Format,
    /// How formats are sorted; the fields of a later word come before those of an earlier one.
    Sort,
    /// Which files parts are merged into.
    Containers,
}

#[derive(Drop)]
pub struct Choosing {
    pub sel: Option<Sel>,
    pub sort: SortWords,
    pub force: bool,
    pub free: bool,
    pub streams: Streams,
}

impl Choosing {
    ghost use Rattle.std.specs.Prelude.{◌≡◌, OnOk, Ok, IfErr};
    ghost use Rattle.word_list.specs.Faults.{IsRefusal};
    ghost use Rattle.word_list.specs.Groups as spec;
    ghost use Rattle.word_list.specs.Views.{plain_choosing};

    pub fn new(alloc: Global) -> Choosing
        ensures { plain_choosing result ≡ spec.no_choosing }
    {
        Choosing {
            sel: None,
            sort: SortWords::new(alloc),
            force: false,
            free: false,
            streams: Streams {
                video: false,
                audio: false,
                merge_ext: Vec::new(alloc),
            },
        }
    }

    /// Turns a flag on or off.
    pub fn turn(&mut self, flag: ChoosingFlag)
        ensures { plain_choosing self.new ≡ spec.choosing_turned flag (plain_choosing self.old) }
    {
        match flag {
            ChoosingFlag::Force(on) => self.force = on,
            ChoosingFlag::Free(on) => self.free = on,
            ChoosingFlag::VideoStreams(on) => self.streams.video = on,
            ChoosingFlag::AudioStreams(on) => self.streams.audio = on,
        }
    }

    /// Gives an option its value.
    pub fn give(
        &mut self,
        alloc: Global,
        option: ChoosingValue,
        value: &str,
    ) -> Result<(), ValueFault>
        ensures set { OnOk result (spec.choosing_given option value.now (plain_choosing self.old) ≡ Ok (plain_choosing self.new)) }
        ensures fault { IfErr result (IsRefusal (spec.choosing_given option value.now (plain_choosing self.old))) }
    {
        match option {
            ChoosingValue::Format => {
                self.sel = Some(selector(alloc, value)?);
                Ok(())
            }
            ChoosingValue::Sort => {
                self.gather(alloc, value)?;
                Ok(())
            }
            ChoosingValue::Containers => {
                self.streams.merge_ext = containers(alloc, value)?;
                Ok(())
            }
        }
    }

    /// Reads a sort word behind the others.
    #[tactic(auto, unfolding(crate::specs::Groups::sort_given))]
    fn gather(&mut self, alloc: Global, word: &str) -> Result<(), ValueFault>
        ensures set { OnOk result (spec.sort_given word.now (plain_choosing self.old) ≡ Ok (plain_choosing self.new)) }
        ensures fault { IfErr result (IsRefusal (spec.sort_given word.now (plain_choosing self.old))) }
    {
        if word.is_empty() {
            return Err(ValueFault::Bad(OptionFault::BadValue));
        }
        self.sort.read(alloc, word)?;
        Ok(())
    }
}
