//! What comes of a component by how its pieces ended.
ghost use Rattle.std.specs.Prelude.{◌≡◌};
ghost use Rattle.component_turn.specs.Judge.{call_of, lacks_memory, some_lacks, first_call, first_failed, judged};

use crate::component_end::ComponentEnd;
use folder_base::{FolderCall, StoreFault};
use link_http::PieceFault;
use piece_turn::PieceEnd;

/// The call of the folder that a piece failed for.
fn call_of(end: PieceEnd) -> Option<FolderCall>
    ensures { result ≡ call_of end }
{
    match end {
        PieceEnd::Failed {
            cause: PieceFault::Folder { call },
            ..
        } => Some(call),
        _ => None,
    }
}

/// The call of the folder that the first piece failed for which failed for one.
fn first_call(ends: &[PieceEnd]) -> Option<FolderCall>
    ensures { result ≡ first_call ends.now }
{
    for end in ends {
        if let Some(call) = call_of(*end) {
            return Some(call);
        }
    }
    None
}

/// Whether a piece failed for want of memory.
fn lacks_memory(end: PieceEnd) -> bool
    ensures { result ≡ lacks_memory end }
{
    matches!(
        end,
        PieceEnd::Failed {
            cause: PieceFault::OutOfMemory,
            ..
        }
    )
}

/// Whether one of the pieces failed for want of memory.
fn some_lacks(ends: &[PieceEnd]) -> bool
    ensures { result ≡ some_lacks ends.now }
{
    for end in ends {
        if lacks_memory(*end) {
            return true;
        }
    }
    false
}

/// The first piece that failed; or none did.
fn first_failed(ends: &[PieceEnd]) -> ComponentEnd
    ensures { result ≡ first_failed 0 ends.now }
{
    for (piece, end) in ends.iter().enumerate() {
        if let PieceEnd::Failed { tries, cause } = *end {
            return ComponentEnd::Failed {
                piece,
                tries,
                cause,
            };
        }
    }
    ComponentEnd::Whole
}

/// The first piece that failed by the folder decides; else want of memory does, where a piece met it; and
/// else the first piece that failed.
pub(crate) fn judge(ends: &[PieceEnd]) -> Result<ComponentEnd, StoreFault>
    ensures { result ≡ judged ends.now }
{
    if let Some(call) = first_call(ends) {
        return Err(StoreFault::Folder { call });
    }
    if some_lacks(ends) {
        return Err(StoreFault::OutOfMemory);
    }
    Ok(first_failed(ends))
}
