//! The characters of a text.
ghost use Rattle.std.specs.Prelude.{◌≡◌, ◌≤◌, length, min, slice_get, IfOk};
ghost use Rattle.std.specs.Str.{chars};

use std::alloc::{AllocError, Global};

/// How many characters a text has.
pub(crate) fn count_letters(text: &str) -> usize
    ensures { result ≡ length (chars text.now) }
{
    text.chars().count()
}

/// How many characters a text has, up to so many: no more are looked at.
pub(crate) fn count_letters_to(text: &str, most: usize) -> usize
    ensures value { result ≡ min most (length (chars text.now)) }
    ensures within { result ≤ most }
{
    text.chars().take(most).count()
}

/// The character at a place from the front.
pub(crate) fn letter_at(text: &str, place: usize) -> Option<char>
    ensures { result ≡ slice_get (chars text.now) place }
{
    text.chars().nth(place)
}

/// The characters, one after another.
pub(crate) fn letters_of(alloc: Global, text: &str) -> Result<Vec<char>, AllocError>
    ensures { IfOk result (λ letters. letters.items ≡ chars text.now) }
{
    text.chars().collect(alloc)
}
