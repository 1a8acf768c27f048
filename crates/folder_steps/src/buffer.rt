ghost use Rattle.std.specs.Prelude.{◌≡◌, IfOk, vec_len};

use std::alloc::Global;
use text_base::OutOfMemory;

/// The buffer through which files are compared and copied: 131,072 bytes.
pub fn new_buffer(alloc: Global) -> Result<Vec<u8>, OutOfMemory>
    ensures { IfOk result (λ buffer. vec_len buffer ≡ 131072) }
{
    Ok(vec![in alloc; 0; 131_072]?)
}
