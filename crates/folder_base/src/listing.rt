//! The names of files in memory.
ghost use Rattle.std.specs.Prelude.{◌≡◌, IfOk};
ghost use Rattle.folder_base.specs.Disk.{begins};
ghost use Rattle.folder_base.specs.Files.{names_of};
ghost use Rattle.folder_base.specs.Names.{Lists};

use crate::files::Files;
use std::alloc::Global;
use text_base::{OutOfMemory, Text};

/// Whether a name begins with these bytes.
fn begins(prefix: &[u8], name: &[u8]) -> bool
    ensures { result ≡ begins prefix.now name.now }
{
    name.starts_with(prefix)
}

/// The standing names that begin with `prefix`, in order.
pub(crate) fn list_names(
    alloc: Global,
    files: &Files,
    prefix: &str,
) -> Result<Vec<Text>, OutOfMemory>
    ensures { IfOk result (λ names. Lists prefix.now (names_of files.now) names.items) }
{
    let mut names = Vec::new(alloc);
    for name in files.keys() {
        if begins(prefix.as_bytes(), name.as_bytes()) {
            names.push(Text::new(alloc, name)?)?;
        }
    }
    Ok(names)
}
