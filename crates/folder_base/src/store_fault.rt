use text_base::FolderCall;
use thiserror::Error;

/// Why a call that works by a folder was refused.
#[derive(Clone, Copy, Debug, PartialEq, Eq, Error)]
pub enum StoreFault {
    /// This call of the folder failed.
    #[error("a call of the folder failed")]
    Folder { call: FolderCall },
    /// Memory ran out.
    #[error("memory ran out")]
    OutOfMemory,
}
