ghost use Rattle.std.specs.Prelude.{◌≡◌};
ghost use Rattle.file_server.specs.Number.{number};

#[tactic(auto, unfolding(crate::specs::Number::number))]
/// A decimal number; one that is too great is the greatest that fits.
pub fn number(text: &[u8]) -> Option<u64>
    ensures { result ≡ number text.now }
{
    if text.is_empty() {
        return None;
    }
    let mut value: u64 = 0;
    for byte in text {
        if !byte.is_ascii_digit() {
            return None;
        }
        value = value
            .saturating_mul(10)
            .saturating_add((*byte - b'0') as u64);
    }
    Some(value)
}
