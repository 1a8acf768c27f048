//! The names of a component's pieces.
ghost use Rattle.std.specs.Prelude.{◌≡◌, IfOk};
ghost use Rattle.component_turn.specs.Plan.{stems_from};

use plan_record::{name_room, write_stem};
use std::alloc::Global;
use text_base::{OutOfMemory, Text};

/// The name that each piece has once it is complete, in the order of the pieces.
pub(crate) fn stems(alloc: Global, component: &str, count: usize) -> Result<Vec<Text>, OutOfMemory>
    ensures { IfOk result (λ stems. stems.items ≡ stems_from component.now 0 count) }
{
    let mut stem = name_room(alloc, component)?;
    let mut stems = Vec::with_capacity(alloc, count)?;
    for piece in 0..count {
        write_stem(&mut stem, component, piece as u64);
        stems.push_reserved(Text::new(alloc, stem.as_str())?);
    }
    Ok(stems)
}
