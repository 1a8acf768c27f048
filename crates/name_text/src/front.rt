//! The front of a text.
ghost use Rattle.std.specs.Prelude.{◌≡◌, IfOk};
ghost use Rattle.name_text.specs.Cut as spec;

use std::alloc::Global;
use text_base::{OutOfMemory, Text};

/// The first characters of a text, as many as have at most this many bytes together.
pub fn byte_cut(alloc: Global, text: &str, bytes: usize) -> Result<Text, OutOfMemory>
    ensures { IfOk result (λ t. t ≡ spec.byte_cut bytes text.now) }
{
    Text::new(alloc, &text[..text.floor_char_boundary(bytes)])
}
