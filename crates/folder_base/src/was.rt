use crate::files::copy_stored;
use crate::stored::Stored;
use std::alloc::Global;
use text_base::{OutOfMemory, Text};

/// What a name had at an earlier moment.
#[derive(Drop)]
pub(crate) enum Was {
    /// Nothing is told of it: the name is another's.
    Apart,
    /// This file, which has no name any more, or none.
    Lost { file: Option<Stored> },
    /// The file that has this name now.
    Still { now: Text },
}

impl Was {
    ghost use Rattle.std.specs.Prelude.{◌≡◌, Option, IfOk};
    ghost use Rattle.folder_base.specs.Disk.{Spot};
    ghost use Rattle.folder_base.specs.Undo.{was_spot};

    pub(crate) fn copy(&self, alloc: Global) -> Result<Was, OutOfMemory>
        ensures { IfOk result
            (λ copy. (now : Option Spot) → was_spot copy now ≡ was_spot self.now now) }
    {
        match self {
            Was::Apart => Ok(Was::Apart),
            Was::Lost { file } => {
                let file = copy_stored(alloc, file)?;
                Ok(Was::Lost { file })
            }
            Was::Still { now } => {
                let now = Text::new(alloc, now.as_str())?;
                Ok(Was::Still { now })
            }
        }
    }
}
