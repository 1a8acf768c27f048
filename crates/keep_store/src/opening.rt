//! How a lane's piece is found among its folder's names.
ghost use Rattle.std.specs.Prelude.{◌≡◌, ◌<◌, ◌^◌, IsTrue, IfOk, IfErr, IfSome, OnOk, length};
ghost use Rattle.keep_store.specs.Lane.{IsRefusal};
ghost use Rattle.keep_store.specs.Opening.{Looked, OwnsPromises, standing_len, IsStanding, IsGreatest, larger, IsOther, Removes, KeepsOthers, Secures, MayRemove, AllStand};
ghost use Rattle.folder_base.specs.Disk.{removed};
ghost use Rattle.folder_base.specs.Story.{stands, Next};
ghost use Rattle.keep_store.specs.Publish.{Stays};

use crate::lane_names::behind;
use crate::numeral::{is_number, number};
use crate::refusal::store_fault;
use folder_base::{Folder, FolderCall, StoreFault};
use text_base::Text;

/// A promised length, where the file has as many bytes.
fn standing_len(promised: Option<u64>, size: Option<u64>) -> Option<u64>
    ensures value { result ≡ standing_len promised size }
    ensures small { IfSome size (λ bytes. bytes < 2 ^ 64) }
{
    match (promised, size) {
        (Some(len), Some(size)) if len <= size => Some(len),
        _ => None,
    }
}

/// How many bytes this name promises, where it stands with as many.
fn standing_promise<F: Folder>(
    folder: &mut F,
    prefix: &str,
    name: &str,
) -> Result<Option<u64>, StoreFault>
    requires { OwnsPromises prefix.now (F.world folder.old) }
    ensures looked { Looked (F.world folder.old) (F.world folder.new) }
    ensures refused { IfErr result (IsRefusal (F.world folder.old) (F.world folder.new)) }
    ensures told { IsTrue (F.world folder.new).tells
        → IfOk result (IsStanding prefix.now (F.world folder.old).story.now.live name.now) }
{
    let Some(digits) = behind(prefix, name) else {
        return Ok(None);
    };
    if !is_number(digits) {
        return Ok(None);
    }
    match folder.size(name) {
        Ok(size) => Ok(standing_len(number(digits), size)),
        Err(_) => Err(StoreFault::Folder {
            call: FolderCall::Size,
        }),
    }
}

/// The greater of two promises.
fn larger(a: Option<u64>, b: Option<u64>) -> Option<u64>
    ensures { result ≡ larger a b }
{
    match (a, b) {
        (None, b) => b,
        (Some(a), None) => Some(a),
        (Some(a), Some(b)) => Some(if a <= b { b } else { a }),
    }
}

/// The greatest promise that stands among these names.
pub(crate) fn greatest_promise<F: Folder>(
    folder: &mut F,
    prefix: &str,
    names: &[Text],
) -> Result<Option<u64>, StoreFault>
    requires { OwnsPromises prefix.now (F.world folder.old) }
    ensures looked { Looked (F.world folder.old) (F.world folder.new) }
    ensures refused { IfErr result (IsRefusal (F.world folder.old) (F.world folder.new)) }
    ensures told { IsTrue (F.world folder.new).tells
        → IfOk result (IsGreatest prefix.now (F.world folder.old).story.now.live names.now
        (length names.now)) }
{
    let mut greatest = None;
    for name in names {
        let found = standing_promise(folder, prefix, name.as_str())?;
        greatest = larger(greatest, found);
    }
    Ok(greatest)
}

/// Whether this name promises bytes, and is not the current one.
fn is_other(prefix: &str, current: &str, name: &str) -> bool
    ensures yes { IsTrue result → IsOther prefix.now current.now name.now }
    ensures all { IsOther prefix.now current.now name.now → IsTrue result }
{
    match behind(prefix, name) {
        Some(digits) => is_number(digits) && name != current,
        None => false,
    }
}

/// Removes a name that promises bytes, but not the current one.
fn remove_other<F: Folder>(
    folder: &mut F,
    prefix: &str,
    current: &str,
    name: &str,
) -> Result<(), StoreFault>
    requires own { OwnsPromises prefix.now (F.world folder.old) }
    requires stands { IsTrue (F.world folder.old).tells → stands (F.world folder.old) name.now }
    ensures kept { Stays (F.world folder.old) (F.world folder.new) }
    ensures refused { IfErr result (IsRefusal (F.world folder.old) (F.world folder.new)) }
    ensures left { IsTrue (F.world folder.new).tells
        → OnOk result (IsOther prefix.now current.now name.now
        → Next (removed name.now) (F.world folder.old).story (F.world folder.new).story) }
    ensures told { IsTrue (F.world folder.new).tells
        → MayRemove prefix.now current.now name.now
        (F.world folder.old).story (F.world folder.new).story }
{
    if !is_other(prefix, current, name) {
        return Ok(());
    }
    match folder.remove(name) {
        Ok(()) => Ok(()),
        Err(fault) => Err(store_fault(FolderCall::Remove, fault)),
    }
}

/// Removes the names among these that promise bytes, but the current one.
pub(crate) fn remove_others<F: Folder>(
    folder: &mut F,
    prefix: &str,
    current: &str,
    names: &[Text],
) -> Result<(), StoreFault>
    requires own { OwnsPromises prefix.now (F.world folder.old) }
    requires stand { IsTrue (F.world folder.old).tells
        → AllStand (F.world folder.old).story.now.live names.now }
    ensures kept { Stays (F.world folder.old) (F.world folder.new) }
    ensures refused { IfErr result (IsRefusal (F.world folder.old) (F.world folder.new)) }
    ensures removed { IsTrue (F.world folder.new).tells
        → OnOk result (Removes prefix.now current.now names.now (length names.now)
        (F.world folder.old).story.now (F.world folder.new).story.now) }
    ensures secured { IsTrue (F.world folder.new).tells
        → Secures current.now (F.world folder.old).story (F.world folder.new).story }
    ensures others { IsTrue (F.world folder.new).tells
        → KeepsOthers prefix.now current.now (F.world folder.old).story.now (F.world folder.new).story.now }
{
    for name in names {
        remove_other(folder, prefix, current, name.as_str())?;
    }
    Ok(())
}
