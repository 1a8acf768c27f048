ghost use Rattle.std.specs.Prelude.{◌≡◌};
ghost use Rattle.file_server.specs.Cut.{before, from_first};

/// What stands before the first of this byte, and what stands from it on.
pub fn cut_at(text: &[u8], byte: u8) -> (&[u8], &[u8])
    ensures front { result.0.now ≡ before byte text.now }
    ensures rest { result.1.now ≡ from_first byte text.now }
{
    for (i, b) in text.iter().enumerate() {
        if *b == byte {
            return text.split_at(i);
        }
    }
    (text, &[])
}
