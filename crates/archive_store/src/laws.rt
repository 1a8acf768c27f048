//! Laws of an archive with a line more.
ghost use Rattle.std.specs.Prelude.{◌≡◌, ◌++◌, [], ◌∷◌, true};
ghost use Rattle.archive_store.specs.Lines.{lines_of, bad_line, is_line, grown};

/// Law: it has the lines of before, and the new one behind them.
pub fn line_is_last(_bytes: &[u8], _line: &str)
    ensures { is_line _line.now ≡ true
        → lines_of (grown _bytes.now _line.now) ≡ lines_of _bytes.now ++ _line.now ∷ [] }
{}

/// Law: it can be read where it could before; where not, the same line is at fault.
pub fn reads_as_before(_bytes: &[u8], _line: &str)
    ensures { is_line _line.now ≡ true
        → bad_line (grown _bytes.now _line.now) ≡ bad_line _bytes.now }
{}
