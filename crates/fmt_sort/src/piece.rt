//! The parts of a piece of a sort word.

ghost use Rattle.std.specs.Prelude.{◌≡◌};
ghost use Rattle.fmt_sort.specs.Pieces as spec;
ghost use Rattle.fmt_sort.specs.PieceParts.{parts_in};

use crate::mark::{Mark, behind_mark};
use text_base::trimmed_bytes;

/// The parts of a piece.
#[derive(Clone, Copy, Debug)]
pub(crate) struct Piece<'a> {
    pub is_reversed: bool,
    pub name: &'a [u8],
    pub is_nearest: bool,
    /// Empty where there is none.
    pub limit: &'a [u8],
}

impl<'a> Piece<'a> {
    /// The parts of a piece as it is written.
    pub fn new(text: &'a [u8]) -> Piece<'a>
        ensures { parts_in result ≡ spec.parts text.entry.now }
    {
        let text = trimmed_bytes(text);
        let (is_reversed, field) = match text {
            [b'+', field @ ..] => (true, field),
            _ => (false, text),
        };
        let (name, marked) = Mark::Limit.split(field);
        Piece {
            is_reversed,
            name,
            is_nearest: matches!(marked, [b'~', ..]),
            limit: behind_mark(marked),
        }
    }
}
