//! Why a chain of child tools ended early.

use folder_base::{FolderCall, StoreFault};
use thiserror::Error;

/// What a child did wrong.
#[derive(Clone, Copy, Debug, PartialEq, Eq)]
pub enum ToolCause {
    /// It did not start.
    Start,
    /// It ended with this status, which is not 0; a child that a signal ended has 255.
    Status(u8),
    /// It ended with status 0 and left no output.
    NoOutput,
}

/// Why a chain of child tools ended before its last step was done.
#[derive(Clone, Copy, Debug, PartialEq, Eq, Error)]
pub enum ToolFault {
    /// The child of this step, counted from 0.
    #[error("a child tool did not do its step")]
    Tool { step: usize, cause: ToolCause },
    /// This call of the folder failed.
    #[error("a call of the folder failed")]
    Folder { call: FolderCall },
    /// Memory ran out.
    #[error("memory ran out")]
    OutOfMemory,
}

impl From<StoreFault> for ToolFault {
    ghost use Rattle.std.specs.Prelude.{◌≡◌};
    ghost use Rattle.tool_chain.specs.Chain.{tool_fault};

    ghost from_gives = { λ s t. t ≡ tool_fault s };

    fn from(fault: StoreFault) -> Self {
        match fault {
            StoreFault::Folder { call } => ToolFault::Folder { call },
            StoreFault::OutOfMemory => ToolFault::OutOfMemory,
        }
    }
}
