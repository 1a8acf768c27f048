ghost use Rattle.std.specs.Prelude.{◌≡◌, ◌≤◌, ℕ, take, IfErr, OnOk, OnErr, true};
ghost use Rattle.std.specs.String.{string_bytes};
ghost use Rattle.ytdl_core.specs.declared.run_fault.Which.TheVariants as which;
ghost use Rattle.ytdl_core.specs.Lines.{Sends, SendsSome, all_to};
ghost use Rattle.ytdl_core.specs.Chunks.{script_of};
ghost use Rattle.ytdl_core.specs.Run.{SinkFails};
ghost use Rattle.ytdl_core.specs.Steps.{IsSinkFault};

use crate::lines::Chunk;
use crate::run_fault::{RunFault, Which};
use crate::sink::Sink;
use text_base::FolderFault;

/// Writes chunks in order, or a front of their bytes.
pub fn write<O: Sink, E: Sink>(chunks: &[Chunk], out: &mut O, err: &mut E) -> Result<(), RunFault>
    ensures whole { OnOk result (Sends (script_of chunks.now)
        (O.written out.old) (O.written out.new) (E.written err.old) (E.written err.new)) }
    ensures front { OnErr result (SendsSome (script_of chunks.now)
        (O.written out.old) (O.written out.new) (E.written err.old) (E.written err.new)) }
    ensures fault { IfErr result IsSinkFault }
    ensures out { SinkFails which.Out (O.is_steady out.old) (O.faults out.old) (O.faults out.new) result }
    ensures err { SinkFails which.Err (E.is_steady err.old) (E.faults err.old) (E.faults err.new) result }
    ensures later { E.refusals err.old ≤ E.refusals err.new }
{
    for chunk in chunks {
        put(chunk, out, err)?;
    }
    Ok(())
}

fn put<O: Sink, E: Sink>(chunk: &Chunk, out: &mut O, err: &mut E) -> Result<(), RunFault>
    ensures whole { OnOk result (Sends (all_to chunk.now.which (string_bytes chunk.now.bytes))
        (O.written out.old) (O.written out.new) (E.written err.old) (E.written err.new)) }
    ensures front { OnErr result (SendsSome (all_to chunk.now.which (string_bytes chunk.now.bytes))
        (O.written out.old) (O.written out.new) (E.written err.old) (E.written err.new)) }
    ensures fault { IfErr result IsSinkFault }
    ensures out { SinkFails which.Out (O.is_steady out.old) (O.faults out.old) (O.faults out.new) result }
    ensures err { SinkFails which.Err (E.is_steady err.old) (E.faults err.old) (E.faults err.new) result }
    ensures later { E.refusals err.old ≤ E.refusals err.new }
    ensures stays_out { O.is_steady out.old ≡ true → O.is_steady out.new ≡ true }
    ensures stays_err { E.is_steady err.old ≡ true → E.is_steady err.new ≡ true }
{
    let bytes = chunk.bytes.as_str().as_bytes();
    match chunk.which {
        Which::Out => match out.put(bytes) {
            Ok(()) => Ok(()),
            Err(FolderFault::Failed) => Err(RunFault::Write { which: Which::Out }),
            Err(FolderFault::OutOfMemory) => Err(RunFault::OutOfMemory),
        },
        Which::Err => match err.put(bytes) {
            Ok(()) => Ok(()),
            Err(FolderFault::Failed) => Err(RunFault::Write { which: Which::Err }),
            Err(FolderFault::OutOfMemory) => Err(RunFault::OutOfMemory),
        },
    }
}
