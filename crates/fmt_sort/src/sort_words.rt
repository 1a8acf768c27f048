//! Sort words that are read one by one, and the order that they give.

ghost use Rattle.std.specs.Prelude.{◌≡◌, ◌≤◌, vec_len, Ok, IfOk, IfErr};
ghost use Rattle.fmt_sort.specs.Reading as spec;
ghost use Rattle.fmt_sort.specs.Spec.{wish_of};

use crate::field_order::in_order;
use crate::given::GivenField;
use crate::reading::read_pieces;
use crate::sort_fault::SortFault;
use crate::sort_spec::SortSpec;
use std::alloc::Global;
use text_base::{OutOfMemory, Text};

/// Sort words that were read, each piece once, before it is known whether their fields come before
/// all others and whether free formats are preferred.
#[derive(Debug, Drop)]
pub struct SortWords {
    /// The fields of a later word stand behind those of an earlier one, each word's last first.
    fields: Vec<GivenField>,
    pieces: usize,
    ghost counted: { pieces ≤ vec_len fields },
}

impl SortWords {
    ghost use Rattle.std.specs.Prelude.{◌≡◌, ◌+◌, ◌++◌, [], length, Ok, IfOk, IfErr, OnOk, OnErr};
    ghost use Rattle.fmt_sort.specs.Read.{given_in, pieces_in};
    ghost use Rattle.fmt_sort.specs.Reading as spec;
    ghost use Rattle.fmt_sort.specs.Spec.{wish_of};

    /// No word was read yet.
    pub fn new(alloc: Global) -> SortWords
        ensures fields { given_in result ≡ [] }
        ensures pieces { pieces_in result ≡ 0 }
    {
        SortWords {
            fields: Vec::new(alloc),
            pieces: 0,
        }
    }

    /// Reads one more word, whose pieces are counted on from those before it.
    pub fn read(&mut self, alloc: Global, word: &str) -> Result<(), SortFault>
        ensures good { OnOk result (spec.pieces_given (pieces_in self.old) (spec.pieces_of word.now)
            ≡ Ok (spec.word_given word.now)) }
        ensures fields { OnOk result
            (given_in self.new ≡ spec.word_given word.now ++ given_in self.old) }
        ensures pieces { OnOk result
            (pieces_in self.new ≡ pieces_in self.old + length (spec.pieces_of word.now)) }
        ensures fault { IfErr result (spec.IsFaultOf
            (spec.pieces_given (pieces_in self.old) (spec.pieces_of word.now))) }
        ensures refused { OnErr result ((given_in self.new ≡ given_in self.old)
            × (pieces_in self.new ≡ pieces_in self.old)) }
    {
        let (mut fields, next) = read_pieces(alloc, word.as_bytes(), self.pieces)?;
        fields.reverse();
        self.fields
            .extend_from_slice(&fields)
            .map_err(OutOfMemory::from)?;
        self.pieces = next;
        Ok(())
    }

    /// The sort specification that the words give; with `force` their fields come before all others,
    /// and `free` prefers extensions of free formats.
    pub fn spec(self, alloc: Global, force: bool, free: bool) -> Result<SortSpec, OutOfMemory>
        ensures { IfOk result (λ s. wish_of s ≡ spec.wish_when force free (given_in self)) }
    {
        let SortWords { fields, .. } = self;
        Ok(SortSpec {
            free,
            fields: in_order(alloc, fields, force, free)?,
        })
    }
}

/// The sort specification that words give; with `force` their fields come before all others, and
/// `free` prefers extensions of free formats.
pub fn read_sort(
    alloc: Global,
    words: &Vec<Text>,
    force: bool,
    free: bool,
) -> Result<SortSpec, SortFault>
    ensures wish { IfOk result (λ s.
        spec.wish_for force free words.now.items ≡ Ok (wish_of s)) }
    ensures fault { IfErr result (spec.IsFaultOf (spec.wish_for force free words.now.items)) }
{
    let mut read = SortWords::new(alloc);
    for word in words {
        read.read(alloc, word.as_str())?;
    }
    Ok(read.spec(alloc, force, free)?)
}
