//! The names that a lane has, for both sides.
ghost use Rattle.std.specs.Prelude.{IfOk};
ghost use Rattle.folder_base.specs.Parts.{AreApart};

use crate::fault::Fault;
use std::alloc::{AllocError, Global};
use text_base::Text;

/// The complete name of a piece.
pub fn stem(alloc: Global, number: u64) -> Result<String, AllocError> {
    format!(in alloc; "v.part-Frag{number}")
}

/// The name of a piece that promises so much.
pub fn promise(alloc: Global, number: u64, promised: u64) -> Result<String, AllocError> {
    format!(in alloc; "v.part-Frag{number}.@{promised}")
}

/// The complete names of so many pieces.
pub fn stems(alloc: Global, count: u64) -> Result<Vec<Text>, Fault>
    ensures { IfOk result (λ stems. AreApart stems.items) }
{
    let mut stems = Vec::new(alloc);
    for number in 0..count {
        stems.push(Text::from(format!(in alloc; "v.part-Frag{number}")?))?;
    }
    Ok(stems)
}
