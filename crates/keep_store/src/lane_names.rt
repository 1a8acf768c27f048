//! The names of a piece that is partly fetched, in room that is made once.
ghost use Rattle.std.specs.Prelude.{◌≡◌, ◌+◌, ◌≤◌, ◌++◌, false, length, IfOk, IfSome, IfNone, string_bytes};
ghost use Rattle.std.specs.String.{string_capacity};
ghost use Rattle.folder_base.specs.Disk.{begins};
ghost use Rattle.keep_store.specs.Promise.{promise_prefix, promise_name};

use itoa::Buffer;
use std::alloc::{AllocError, Global};

/// The most bytes behind the stem: a point, `@` and a number of 64 bits.
const MARK_ROOM: usize = 22;

/// Room for each name of this stem that promises bytes.
pub(crate) fn name_room(alloc: Global, stem: &str) -> Result<String, AllocError>
    ensures { IfOk result (λ name. length stem.now + 22 ≤ string_capacity name) }
{
    let room = stem.len().checked_add(MARK_ROOM).ok_or(AllocError)?;
    String::with_capacity(alloc, room)
}

/// What each promise's name of this stem begins with.
pub(crate) fn promise_prefix(alloc: Global, stem: &str) -> Result<String, AllocError>
    ensures { IfOk result (λ prefix. string_bytes prefix ≡ promise_prefix stem.now) }
{
    let mut prefix = String::from_str(alloc, stem)?;
    prefix.push_str(".@")?;
    Ok(prefix)
}

/// Writes the name that promises the first `len` bytes.
pub(crate) fn write_promise(name: &mut String, stem: &str, len: u64)
    requires { length stem.now + 22 ≤ string_capacity name.old }
    ensures bytes { string_bytes name.new ≡ promise_name stem.now len }
    ensures room { length stem.now + 22 ≤ string_capacity name.new }
{
    let mut digits = Buffer::new();
    name.clear();
    name.push_str(stem).unwrap();
    name.push_str(".@").unwrap();
    name.push_str(digits.format(len)).unwrap();
}

/// Writes the piece's complete name.
pub(crate) fn write_whole(name: &mut String, stem: &str)
    requires { length stem.now + 22 ≤ string_capacity name.old }
    ensures bytes { string_bytes name.new ≡ stem.now }
    ensures room { length stem.now + 22 ≤ string_capacity name.new }
{
    name.clear();
    name.push_str(stem).unwrap();
}

/// What follows this beginning of a name. None where it does not begin so.
pub(crate) fn behind<'a>(prefix: &str, name: &'a str) -> Option<&'a [u8]>
    ensures some { IfSome result (λ rest. name.now ≡ prefix.now ++ rest.now) }
    ensures none { IfNone result (begins prefix.now name.now ≡ false) }
{
    let (prefix, name) = (prefix.as_bytes(), name.as_bytes());
    if name.starts_with(prefix) {
        Some(&name[prefix.len()..])
    } else {
        None
    }
}
