ghost use Rattle.std.specs.Prelude.{◌≡◌, ◌≢◌, ◌+◌, ◌≤◌, ℕ, List, take, drop, length, true, false, IfOk, IfErr, IfSome, IsErrOf, OnOk, Some, Err};
ghost use Rattle.ytdl_core.specs.declared.run_fault.RunFault.TheVariants as fault;
ghost use Rattle.ytdl_core.specs.Reading.{limit, IsReadFault};

use crate::run_fault::RunFault;
use crate::source::InfoSource;
use std::alloc::Global;

/// One byte more than information may have.
const READ_LIMIT: usize = 67_108_865;

/// The bytes of the file with this name, or their first 67,108,865.
pub fn read_file<I: InfoSource>(
    alloc: Global,
    info: &mut I,
    name: &str,
) -> Result<Vec<u8>, RunFault>
    requires { I.is_open info.old ≡ false }
    ensures named { OnOk result (IfSome (I.file info.old) (λ file. file.name ≡ name.now)) }
    ensures bytes { IfOk result (λ bytes. IfSome (I.file info.old) (λ file.
        (bytes.items ≡ take limit file.bytes) × (I.left info.new ≡ Some (drop limit file.bytes)))) }
    ensures later { I.faults info.old ≤ I.faults info.new }
    ensures kept { result ≢ Err fault.InfoRead → I.faults info.new ≡ I.faults info.old }
    ensures fault { IfErr result (IsReadFault (I.faults info.old) (I.faults info.new)) }
    ensures steady { IsErrOf result fault.InfoRead → I.is_steady info.old ≡ true →
        IfSome (I.file info.old) (λ file. file.name ≢ name.now) }
{
    match info.open(name) {
        Ok(()) => read_open(alloc, info),
        Err(_) => Err(RunFault::InfoRead),
    }
}

/// The bytes that an open file has left, or the first 67,108,865 of them.
fn read_open<I: InfoSource>(alloc: Global, info: &mut I) -> Result<Vec<u8>, RunFault>
    requires { I.is_open info.old ≡ true }
    ensures bytes { IfOk result (λ bytes. IfSome (I.left info.old) (λ left.
        (bytes.items ≡ take limit left) × (I.left info.new ≡ Some (drop limit left)))) }
    ensures later { I.faults info.old ≤ I.faults info.new }
    ensures kept { result ≢ Err fault.InfoRead → I.faults info.new ≡ I.faults info.old }
    ensures fault { IfErr result (IsReadFault (I.faults info.old) (I.faults info.new)) }
    ensures steady { IsErrOf result fault.InfoRead → I.is_steady info.old ≡ true → ⊥ }
{
    let mut bytes = Vec::new(alloc);
    let mut buffer = [0u8; 65536];
    'reads: while bytes.len() < READ_LIMIT {
        let room = (READ_LIMIT - bytes.len()).min(buffer.len());
        let count = match info.read(&mut buffer[..room]) {
            Ok(count) => count,
            Err(_) => return Err(RunFault::InfoRead),
        };
        if count == 0 {
            return Ok(bytes);
        }
        bytes.extend_from_slice(&buffer[..count])?;
    }
    Ok(bytes)
}
