//! What a child in memory does, by the calls of the folder.
ghost use Rattle.std.specs.Prelude.{◌≡◌, true, IsTrue, IfOk, OnErr, Some, None, map, bytes_eq};
ghost use Rattle.folder_base.specs.Story.{IsWhole};
ghost use Rattle.keep_store.specs.Opening.{Looked};
ghost use Rattle.keep_store.specs.Safe.{reads};
ghost use Rattle.folder_steps.specs.Blames.{BlamesMemory};
ghost use Rattle.tool_chain.specs.Memory.{bytes_of, joined};
ghost use Rattle.tool_chain.specs.Runs.{IsRead, AreRead, Spares};

use folder_base::{Folder, FolderCall, StoreFault};
use folder_steps::{is_there, put_behind, read_all, store_fault};
use std::alloc::Global;
use text_base::{OutOfMemory, Text};

/// The bytes of a file; None where the name does not stand.
fn read_file<F: Folder>(
    alloc: Global,
    folder: &mut F,
    name: &str,
) -> Result<Option<Vec<u8>>, StoreFault>
    requires whole { IsTrue (F.world folder.old).tells → IsWhole (F.world folder.old) }
    ensures looked { Looked (F.world folder.old) (F.world folder.new) }
    ensures told { IsTrue (F.world folder.new).tells
        → IfOk result (λ kept. bytes_of kept ≡ reads (F.world folder.old).story.now name.now) }
    ensures blames { BlamesMemory (F.world folder.old) (F.world folder.new) result }
{
    if !is_there(folder, name)? {
        return Ok(None);
    }
    Ok(Some(read_all(alloc, folder, name)?))
}

/// Reads an input of a child, where each of those before it was read. One that is not read has no bytes.
fn read_next<F: Folder>(
    alloc: Global,
    folder: &mut F,
    name: &str,
    are_read: &mut bool,
) -> Result<Option<Vec<u8>>, OutOfMemory>
    requires whole { IsTrue (F.world folder.old).tells → IsWhole (F.world folder.old) }
    ensures looked { Looked (F.world folder.old) (F.world folder.new) }
    ensures told { IsTrue (F.world folder.new).tells
        → IfOk result
        (λ kept. IsRead (F.world folder.old).story.now name.now (bytes_of kept)) }
    ensures exact { IsTrue (F.world folder.new).tells
        → are_read.new ≡ true
        → IfOk result (λ kept. bytes_of kept ≡ reads (F.world folder.old).story.now name.now) }
    ensures still { are_read.new ≡ true
        → (are_read.old ≡ true) × ((F.world folder.new).faults ≡ (F.world folder.old).faults) }
    ensures fed { OnErr result (are_read.new ≡ true) }
    ensures steady { IsTrue (F.world folder.old).steady → IsTrue (F.world folder.old).tells
        → are_read.old ≡ true → are_read.new ≡ true }
{
    if !*are_read {
        return Ok(None);
    }
    match read_file(alloc, folder, name) {
        Ok(bytes) => Ok(bytes),
        Err(StoreFault::Folder { .. }) => {
            *are_read = false;
            Ok(None)
        }
        Err(StoreFault::OutOfMemory) => Err(OutOfMemory),
    }
}

/// The inputs of a child, and whether each was read.
#[derive(Drop)]
pub(crate) struct Inputs {
    pub all: Vec<Option<Vec<u8>>>,
    pub are_read: bool,
}

/// Reads the inputs of a child, up to the first that cannot be read. It has no bytes, nor have those
/// behind it.
pub(crate) fn read_inputs<F: Folder>(
    alloc: Global,
    folder: &mut F,
    names: &Vec<Text>,
) -> Result<Inputs, OutOfMemory>
    requires whole { IsTrue (F.world folder.old).tells → IsWhole (F.world folder.old) }
    ensures looked { Looked (F.world folder.old) (F.world folder.new) }
    ensures told { IsTrue (F.world folder.new).tells
        → IfOk result
        (λ inputs. AreRead names.now.items (F.world folder.old).story.now (map bytes_of inputs.all.items)) }
    ensures exact { IsTrue (F.world folder.new).tells
        → IfOk result
        (λ inputs. inputs.are_read ≡ true
        → map bytes_of inputs.all.items ≡ map (reads (F.world folder.old).story.now) names.now.items) }
    ensures still { IfOk result
        (λ inputs. inputs.are_read ≡ true → (F.world folder.new).faults ≡ (F.world folder.old).faults) }
    ensures fed { OnErr result ((F.world folder.new).faults ≡ (F.world folder.old).faults) }
    ensures steady { IsTrue (F.world folder.old).steady → IsTrue (F.world folder.old).tells
        → IfOk result (λ inputs. inputs.are_read ≡ true) }
{
    let mut all = Vec::with_capacity(alloc, names.len())?;
    let mut are_read = true;
    for name in names {
        let bytes = read_next(alloc, folder, name.as_str(), &mut are_read)?;
        all.push_reserved(bytes);
    }
    Ok(Inputs { all, are_read })
}

/// The bytes of the inputs, one after another.
fn join(alloc: Global, inputs: &Vec<Option<Vec<u8>>>) -> Result<Vec<u8>, OutOfMemory>
    ensures { IfOk result (λ bytes. bytes.items ≡ joined (map bytes_of inputs.now.items)) }
{
    let mut joined = Vec::new(alloc);
    for input in inputs {
        if let Some(bytes) = input {
            joined.extend_from_slice(bytes.as_slice())?;
        }
    }
    Ok(joined)
}

/// Makes an output of the inputs, where nothing stands in its place. Answers whether it did.
pub(crate) fn make_output<F: Folder>(
    alloc: Global,
    folder: &mut F,
    name: &str,
    inputs: &Vec<Option<Vec<u8>>>,
) -> Result<bool, StoreFault>
    requires whole { IsTrue (F.world folder.old).tells → IsWhole (F.world folder.old) }
    ensures spares { Spares (bytes_eq name.now) (F.world folder.old) (F.world folder.new) }
    ensures made { IsTrue (F.world folder.new).tells
        → IfOk result
        (λ made. made ≡ true
        → reads (F.world folder.new).story.now name.now ≡ Some (joined (map bytes_of inputs.now.items))) }
    ensures free { IsTrue (F.world folder.new).tells
        → IfOk result (λ made. (F.world folder.old).story.now.live name.now ≡ None → made ≡ true) }
    ensures blames { BlamesMemory (F.world folder.old) (F.world folder.new) result }
{
    if is_there(folder, name)? {
        return Ok(false);
    }
    let Ok(bytes) = join(alloc, inputs) else {
        return Err(StoreFault::OutOfMemory);
    };
    if let Err(fault) = folder.create(name) {
        return Err(store_fault(FolderCall::Create, fault));
    }
    put_behind(folder, name, bytes.as_slice())?;
    Ok(true)
}
