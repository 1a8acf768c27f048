//! The files of a folder in memory, by name.
ghost use Rattle.std.specs.Prelude.{◌≡◌, ◌≢◌, true, false, OnOk, OnErr, IfOk, IfSome, IfNone, None, Some, is_some, length, option_map};
ghost use Rattle.folder_base.specs.Disk.{content, longer, shorter, firm, put, empty_file, lasting_file, renamed_names};
ghost use Rattle.folder_base.specs.Files.{names_of, changed_name, over, without};
ghost use Rattle.folder_base.specs.Log.{stood};
ghost use Rattle.folder_base.specs.Names.{ReadsFile};
ghost use Rattle.folder_base.specs.Stored.{file_of};

use crate::file::File;
use crate::stored::Stored;
use std::alloc::{AllocError, Global};
use std::collections::BTreeMap;
use text_base::OutOfMemory;

pub(crate) type Files = BTreeMap<String, Stored>;

/// Reads a file's bytes from `at` on. None where the name does not stand.
pub(crate) fn read_file(files: &Files, name: &str, at: u64, buf: &mut [u8]) -> Option<usize>
    ensures read { IfSome result
        (λ count. ReadsFile (names_of files.now name.now) at buf.new count) }
    ensures none { IfNone result (names_of files.now name.now ≡ None) }
{
    match files.get(name) {
        Some(file) => Some(file.read_at(at, buf)),
        None => None,
    }
}

/// How many bytes a file has. None where the name does not stand.
pub(crate) fn file_size(files: &Files, name: &str) -> Option<u64>
    ensures { result ≡ option_map (λ file. length (content file)) (names_of files.now name.now) }
{
    match files.get(name) {
        Some(file) => Some(file.bytes.len() as u64),
        None => None,
    }
}

/// Puts a file of lasting bytes under a name.
fn store_file(alloc: Global, files: &mut Files, file: &File) -> Result<(), OutOfMemory>
    ensures { IfOk result
        (λ _. names_of files.new ≡ put (names_of files.old) file.now.name
        (Some (lasting_file file.now.bytes.items))) }
{
    let key = String::from_str(alloc, file.name.as_str())?;
    files.insert(key, Stored::lasting(alloc, &file.bytes)?)?;
    Ok(())
}

/// A map of these files, all their bytes lasting.
pub(crate) fn store_all(alloc: Global, all: &Vec<File>) -> Result<Files, OutOfMemory>
    ensures { IfOk result (λ files. names_of files ≡ stood (λ _. None) all.now.items) }
{
    let mut files = BTreeMap::new(alloc);
    for file in all {
        store_file(alloc, &mut files, file)?;
    }
    Ok(files)
}

/// Puts bytes behind a file's end. Answers whether the name stands.
pub(crate) fn extend_file(files: &mut Files, name: &str, bytes: &[u8]) -> Result<bool, AllocError>
    ensures names { IfOk result
        (λ _. names_of files.new ≡ changed_name name.now (longer bytes.now) (names_of files.old)) }
    ensures stood { IfOk result (λ stood. stood ≡ is_some (names_of files.old name.now)) }
    ensures err { OnErr result (names_of files.new ≡ names_of files.old) }
{
    match files.get_mut(name) {
        Some(file) => match file.extend(bytes) {
            Ok(()) => Ok(true),
            Err(refused) => Err(refused),
        },
        None => Ok(false),
    }
}

/// Leaves at most `len` bytes of a file. Answers whether the name stands.
pub(crate) fn cut_file(files: &mut Files, name: &str, len: u64) -> bool
    ensures names { names_of files.new ≡ changed_name name.now (shorter len) (names_of files.old) }
    ensures stood { result ≡ is_some (names_of files.old name.now) }
{
    match files.get_mut(name) {
        Some(file) => {
            file.shorten(len);
            true
        }
        None => false,
    }
}

/// Makes a file's bytes lasting. Answers whether the name stands.
pub(crate) fn sync_file(files: &mut Files, name: &str) -> bool
    ensures names { names_of files.new ≡ changed_name name.now firm (names_of files.old) }
    ensures stood { result ≡ is_some (names_of files.old name.now) }
{
    match files.get_mut(name) {
        Some(file) => {
            file.make_firm();
            true
        }
        None => false,
    }
}

/// Makes an empty file, in place of one that has the name.
pub(crate) fn create_file(alloc: Global, files: &mut Files, name: &str) -> Result<(), AllocError>
    ensures names { IfOk result
        (λ _. names_of files.new ≡ put (names_of files.old) name.now (Some empty_file)) }
    ensures err { OnErr result (names_of files.new ≡ names_of files.old) }
{
    let key = String::from_str(alloc, name)?;
    match files.insert(key, Stored::empty(alloc)) {
        Ok(_replaced) => Ok(()),
        Err(_refused) => Err(AllocError),
    }
}

/// Removes a file. Answers whether the name stood.
pub(crate) fn remove_file(files: &mut Files, name: &str) -> bool
    ensures names { names_of files.new ≡ put (names_of files.old) name.now None }
    ensures stood { result ≡ is_some (names_of files.old name.now) }
{
    files.remove(name).is_some()
}

/// Puts a file, or none, under a name. Answers what stood there.
pub(crate) fn put_file(
    alloc: Global,
    files: &mut Files,
    name: &str,
    file: Option<Stored>,
) -> Result<Option<Stored>, OutOfMemory>
    ensures names { OnOk result
        (names_of files.new ≡ put (names_of files.old) name.now (option_map file_of file)) }
    ensures stood { IfOk result (λ stood. option_map file_of stood ≡ names_of files.old name.now) }
{
    match file {
        Some(file) => {
            let key = String::from_str(alloc, name)?;
            Ok(files.insert(key, file)?)
        }
        None => Ok(files.remove(name)),
    }
}

/// Puts a file in the place of one that has the name.
fn place_file(files: &mut Files, name: &str, file: Stored)
    requires { is_some (names_of files.old name.now) ≡ true }
    ensures { names_of files.new ≡ put (names_of files.old) name.now (Some (file_of file)) }
{
    if let Some(place) = files.get_mut(name) {
        *place = file;
    }
}

/// Gives a file another name. Answers whether its name stood.
pub(crate) fn move_file(
    alloc: Global,
    files: &mut Files,
    from: &str,
    to: &str,
) -> Result<bool, AllocError>
    requires { from.now ≢ to.now }
    ensures names { IfOk result
        (λ stood. stood ≡ true
        → names_of files.new ≡ renamed_names from.now to.now (names_of files.old)) }
    ensures gone { IfOk result (λ stood. stood ≡ false → names_of files.new ≡ names_of files.old) }
    ensures stood { IfOk result (λ stood. stood ≡ is_some (names_of files.old from.now)) }
    ensures err { OnErr result (names_of files.new ≡ names_of files.old) }
{
    if !files.contains_key(from) {
        return Ok(false);
    }
    create_file(alloc, files, to)?;
    let Some(file) = files.remove(from) else {
        return Ok(false);
    };
    place_file(files, to, file);
    Ok(true)
}

/// Puts under a name among `to` what stands under it among `from`.
pub(crate) fn copy_name(
    alloc: Global,
    from: &Files,
    name: &str,
    to: &mut Files,
) -> Result<(), OutOfMemory>
    ensures ok { OnOk result
        (names_of to.new ≡ put (names_of to.old) name.now (names_of from.now name.now)) }
    ensures err { OnErr result (names_of to.new ≡ names_of to.old) }
{
    match from.get(name) {
        Some(file) => {
            let copy = file.copy(alloc)?;
            to.insert(String::from_str(alloc, name)?, copy)?;
        }
        None => {
            remove_file(to, name);
        }
    }
    Ok(())
}

/// A copy of a file, if there is one.
pub(crate) fn copy_stored(
    alloc: Global,
    file: &Option<Stored>,
) -> Result<Option<Stored>, OutOfMemory>
    ensures { IfOk result (λ copy. option_map file_of copy ≡ option_map file_of file.now) }
{
    match file {
        Some(file) => Ok(Some(file.copy(alloc)?)),
        None => Ok(None),
    }
}

/// A copy of the file that stands under a name, if there is one.
pub(crate) fn copy_of(
    alloc: Global,
    files: &Files,
    name: &str,
) -> Result<Option<Stored>, OutOfMemory>
    ensures { IfOk result (λ copy. option_map file_of copy ≡ names_of files.now name.now) }
{
    match files.get(name) {
        Some(file) => Ok(Some(file.copy(alloc)?)),
        None => Ok(None),
    }
}

/// Puts copies of all files of `from` among `to`.
pub(crate) fn copy_all(alloc: Global, from: &Files, to: &mut Files) -> Result<(), OutOfMemory>
    ensures ok { OnOk result
        (names_of to.new ≡ over (names_of from.now) (names_of to.old)) }
    ensures others { without (names_of from.now) (names_of to.new) ≡ without (names_of from.now)
        (names_of to.old) }
{
    for name in from.keys() {
        copy_name(alloc, from, name, to)?;
    }
    Ok(())
}

/// Copies of all these files.
pub(crate) fn copy_files(alloc: Global, files: &Files) -> Result<Files, OutOfMemory>
    ensures { IfOk result (λ copies. names_of copies ≡ names_of files.now) }
{
    let mut copies = BTreeMap::new(alloc);
    copy_all(alloc, files, &mut copies)?;
    Ok(copies)
}

/// Removes from `to` all names of `from`.
pub(crate) fn remove_all(from: &Files, to: &mut Files)
    ensures { names_of to.new ≡ without (names_of from.now) (names_of to.old) }
{
    for name in from.keys() {
        remove_file(to, name);
    }
}
