//! Spaces at the ends of a text.

ghost use Rattle.std.specs.Prelude.{◌≡◌};
ghost use Rattle.text_base.specs.Spaces as spec;

/// A text without the spaces at its front.
pub fn without_first_spaces(text: &str) -> &str
    ensures { result.now ≡ spec.without_first_spaces text.now }
{
    text.trim_start_matches(' ')
}

/// A text without the spaces at its end.
pub fn without_last_spaces(text: &str) -> &str
    ensures { result.now ≡ spec.without_last_spaces text.now }
{
    text.trim_end_matches(' ')
}

/// A text without the spaces around it.
pub fn trimmed(text: &str) -> &str
    ensures { result.now ≡ spec.trimmed text.now }
{
    without_last_spaces(without_first_spaces(text))
}

/// Bytes without the spaces at their front.
fn bytes_without_first_spaces(bytes: &[u8]) -> &[u8]
    ensures { result.now ≡ spec.without_first_spaces bytes.now }
{
    let mut rest = bytes;
    while let [b' ', behind @ ..] = rest {
        rest = behind;
    }
    rest
}

/// Bytes without the spaces at their end.
fn bytes_without_last_spaces(bytes: &[u8]) -> &[u8]
    ensures { result.now ≡ spec.without_last_spaces bytes.now }
{
    let mut end = bytes.len();
    while end > 0 && bytes[end - 1] == b' ' {
        end -= 1;
    }
    &bytes[..end]
}

/// Bytes without the spaces around them.
pub fn trimmed_bytes(bytes: &[u8]) -> &[u8]
    ensures { result.now ≡ spec.trimmed bytes.now }
{
    bytes_without_last_spaces(bytes_without_first_spaces(bytes))
}
