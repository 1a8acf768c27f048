//! Names as paths below a folder.
ghost use Rattle.std.specs.Prelude.{◌≡◌, codes};
ghost use Rattle.disk_folder.specs.Inside.{has_part, has_zero, is_inside};

/// Whether a name leads to a file below the folder: it has no zero byte, and none of its parts
/// between slashes is empty, `.` or `..`.
pub(crate) fn is_inside(name: &str) -> bool
    ensures { result ≡ is_inside name.now }
{
    !has_zero(name.as_bytes())
        && !has_empty_part(name)
        && !has_one_point(name)
        && !has_two_points(name)
}

/// Whether a name has a byte that no path of the system has.
fn has_zero(name: &[u8]) -> bool
    ensures { result ≡ has_zero name.now }
{
    name.iter().any(|byte| *byte == 0)
}

/// Whether a part between slashes is empty.
fn has_empty_part(name: &str) -> bool
    ensures { result ≡ has_part (codes "") name.now }
{
    name.split('/').any(|part| part == "")
}

/// Whether a part between slashes is the folder itself.
fn has_one_point(name: &str) -> bool
    ensures { result ≡ has_part (codes ".") name.now }
{
    name.split('/').any(|part| part == ".")
}

/// Whether a part between slashes is the folder above.
fn has_two_points(name: &str) -> bool
    ensures { result ≡ has_part (codes "..") name.now }
{
    name.split('/').any(|part| part == "..")
}

/// The folder that a name stands in: what is before its last slash. No bytes are the folder itself.
pub(crate) fn folder_of(name: &str) -> &str {
    match name.rsplit_once('/') {
        Some((folder, _)) => folder,
        None => "",
    }
}

/// The path of a folder, for the system.
pub(crate) fn path_of(folder: &str) -> &str {
    if folder.is_empty() { "." } else { folder }
}
