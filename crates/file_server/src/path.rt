ghost use Rattle.std.specs.Prelude.{◌≡◌, Some, IfOk, IfSome, IfNone, string_bytes, IsUtf8};
ghost use Rattle.file_server.specs.Path.{path_of, climbs, has_zero, stays_below};

use crate::cut::cut_at;
use percent_encoding::{DecodeError, percent_decode};
use std::alloc::{AllocError, Global};

/// The path of the file that a target names, from the folder on. None where the target names none
/// below the folder, or its path is no text.
pub fn file_path(alloc: Global, target: &[u8]) -> Result<Option<String>, AllocError>
    ensures some { IfOk result (λ found. IfSome found
        (λ path. path_of target.now ≡ Some (string_bytes path))) }
    ensures none { IfOk result (λ found. IfNone found
        (IfSome (path_of target.now) (λ path. ¬ IsUtf8 path))) }
{
    let (target, _query) = cut_at(target, b'?');
    let Some(path) = target.strip_prefix(b"/".as_slice()) else {
        return Ok(None);
    };
    match percent_decode(path).decode_utf8(alloc) {
        Ok(path) if stays_below(&path) => Ok(Some(path.into_owned(alloc)?)),
        Ok(_) | Err(DecodeError::Utf8(_)) => Ok(None),
        Err(DecodeError::OutOfMemory) => Err(AllocError),
    }
}

/// Whether a path does not lead out of its folder, and can be one of the system.
fn stays_below(path: &str) -> bool
    ensures { result ≡ stays_below path.now }
{
    !path.as_bytes().starts_with(b"/") && !climbs(path) && !has_zero(path.as_bytes())
}

/// Whether a piece of a path is the folder above.
fn climbs(path: &str) -> bool
    ensures { result ≡ climbs path.now }
{
    path.split('/').any(|piece| piece == "..")
}

/// Whether a path has a byte that no path of the system has.
fn has_zero(path: &[u8]) -> bool
    ensures { result ≡ has_zero path.now }
{
    path.iter().any(|byte| *byte == 0)
}
