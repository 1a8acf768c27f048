//! Reads an archive's bytes as lines.
ghost use Rattle.std.specs.Prelude.{◌≡◌, ◌||◌, ℕ, List, None, IfOk, IfErr, OnOk, OnErr, bytes_eq, ◌∷◌, []};
ghost use Rattle.std.specs.BTreeSet.{contains_text};
ghost use Rattle.archive_store.specs.Causes.{IsBytesFault};
ghost use Rattle.archive_store.specs.Lines.{lines_of, lines_in, is_among, bad_line};

use crate::archive_fault::ArchiveFault;
use std::alloc::Global;
use std::collections::BTreeSet;
use text_base::OutOfMemory;

/// Puts a line among these.
pub(crate) fn put(
    alloc: Global,
    lines: &mut BTreeSet<String>,
    line: &str,
) -> Result<(), OutOfMemory>
    ensures put { OnOk result
        ((other : List ℕ) → contains_text lines.new other
        ≡ (bytes_eq line.now other || contains_text lines.old other)) }
    ensures same { OnErr result
        ((other : List ℕ) → contains_text lines.new other ≡ contains_text lines.old other) }
{
    let line = String::from_str(alloc, line)?;
    lines.insert(line)?;
    Ok(())
}

/// Puts a piece's line among these, where the piece has one.
fn put_piece(alloc: Global, lines: &mut BTreeSet<String>, piece: &str) -> Result<(), OutOfMemory>
    ensures { OnOk result
        ((other : List ℕ) → contains_text lines.new other
        ≡ (is_among (lines_in (piece.now ∷ [])) other || contains_text lines.old other)) }
{
    let line = piece.trim_ascii();
    if line.is_empty() {
        return Ok(());
    }
    put(alloc, lines, line)
}

/// The lines of an archive's bytes.
pub(crate) fn lines_of(alloc: Global, bytes: &[u8]) -> Result<BTreeSet<String>, ArchiveFault>
    ensures good { IfOk result (λ lines. bad_line bytes.now ≡ None) }
    ensures lines { IfOk result
        (λ lines. (line : List ℕ) → contains_text lines line ≡ is_among (lines_of bytes.now) line) }
    ensures refused { IfErr result (IsBytesFault bytes.now) }
{
    let mut lines = BTreeSet::new(alloc);
    for (place, piece) in bytes.split(|byte| *byte == b'\n').enumerate() {
        let Ok(text) = std::str::from_utf8(piece) else {
            return Err(ArchiveFault::BadText { line: place + 1 });
        };
        put_piece(alloc, &mut lines, text)?;
    }
    Ok(lines)
}
