ghost use Rattle.std.specs.Prelude.{◌≡◌, ℕ, List, ◌<◌, ◌∷◌, IfSome, IfNone, true, SomeIff};
ghost use Rattle.std.specs.Char.{digit_value};
ghost use Rattle.std.specs.Str.{IsUtf8};
ghost use Rattle.info_tree.specs.Strings.{short_value};
ghost use Rattle.info_tree.specs.Token.{is_escape_letter, IsHexDigit};
ghost use Rattle.info_tree.specs.Lexed.{EndsEscape, NoEscape, IsHexUnit};

use crate::ascii::split_ascii;

/// What an escape stands for (RFC 8259, section 7).
#[derive(Clone, Copy)]
pub enum Escape {
    /// A character of ASCII, as a line feed.
    Char(u8),
    /// A unit of UTF-16, which may be half of a pair.
    Unit(u16),
}

/// The escape behind a backslash, and what follows it.
pub fn read_escape(text: &str) -> Option<(Escape, &str)>
    ensures some { IfSome result (λ p. EndsEscape text.now p.0 p.1.now) }
    ensures text { IfSome result (λ p. IsUtf8 p.1.now) }
    ensures none { IfNone result (NoEscape text.now) }
{
    let (letter, after) = split_ascii(text)?;
    if letter == b'u' {
        let (unit, rest) = hex_unit(after)?;
        return Some((Escape::Unit(unit), rest));
    }
    let char = short_char(letter)?;
    Some((Escape::Char(char), after))
}

/// The unit that four hexadecimal digits stand for, and what follows them.
fn hex_unit(text: &str) -> Option<(u16, &str)>
    ensures some { IfSome result (λ p. IsHexUnit text.now p.0 p.1.now) }
    ensures text { IfSome result (λ p. IsUtf8 p.1.now) }
    ensures none { IfNone result ((a b c d : ℕ) (rest : List ℕ) → text.now ≡ a ∷ b ∷ c ∷ d ∷ rest →
        IsHexDigit a → IsHexDigit b → IsHexDigit c → IsHexDigit d → ⊥) }
{
    let (a, text) = hex_digit(text)?;
    let (b, text) = hex_digit(text)?;
    let (c, text) = hex_digit(text)?;
    let (d, text) = hex_digit(text)?;
    Some((((a * 16 + b) * 16 + c) * 16 + d, text))
}

/// The value of a hexadecimal digit, and what follows it.
fn hex_digit(text: &str) -> Option<(u16, &str)>
    ensures some { IfSome result (λ p. (b : ℕ) × (text.now ≡ b ∷ p.1.now)
        × IsHexDigit b × (digit_value b ≡ p.0)) }
    ensures small { IfSome result (λ p. p.0 < 16) }
    ensures text { IfSome result (λ p. IsUtf8 p.1.now) }
    ensures none { IfNone result ((b : ℕ) (rest : List ℕ) →
        text.now ≡ b ∷ rest → IsHexDigit b → ⊥) }
{
    let (byte, rest) = split_ascii(text)?;
    let digit = (byte as char).to_digit(16)?;
    Some((digit as u16, rest))
}

/// The character that a short escape stands for.
fn short_char(letter: u8) -> Option<u8>
    ensures { SomeIff result (is_escape_letter letter ≡ true) (short_value letter) }
{
    match letter {
        b'"' | b'\\' | b'/' => Some(letter),
        b'b' => Some(8),
        b'f' => Some(12),
        b'n' => Some(b'\n'),
        b'r' => Some(b'\r'),
        b't' => Some(b'\t'),
        _ => None,
    }
}
