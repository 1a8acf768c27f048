ghost use Rattle.std.specs.Prelude.{◌≡◌, ℕ, List, ◌∷◌, ◌++◌, Option, Some, None, map, true, IfOk, OnOk, encode_utf8, []};
ghost use Rattle.std.specs.Option.{ForSome};
ghost use Rattle.std.specs.String.{string_bytes};
ghost use Rattle.std.specs.Char.Utf16.{is_high_surrogate, is_low_surrogate, surrogate_pair_char, lone_unit_char};
ghost use Rattle.info_tree.specs.Token.{Piece, byte};
ghost use Rattle.info_tree.specs.Strings.{text_from, after_unit, joined, flushed, lone};
ghost use Rattle.info_tree.specs.Lexed.{IsEscape};

use crate::escape::Escape;
use std::alloc::Global;
use text_base::OutOfMemory;

/// The text of a string so far, and a high surrogate that waits for its partner.
#[derive(Drop)]
pub struct Decoded {
    pub text: String,
    pub high: Option<u16>,
    ghost waits: { ForSome high (λ h. is_high_surrogate h ≡ true) },
}

impl Decoded {
    /// The text of bytes as they stand.
    pub fn new(alloc: Global, plain: &str) -> Result<Decoded, OutOfMemory>
        ensures text { IfOk result (λ d. string_bytes d.text ≡ plain.now) }
        ensures high { IfOk result (λ d. d.high ≡ None) }
    {
        Ok(Decoded {
            text: String::from_str(alloc, plain)?,
            high: None,
        })
    }

    /// Puts bytes as they stand.
    pub fn push_plain(&mut self, plain: &str) -> Result<(), OutOfMemory>
        ensures { OnOk result ((more : List Piece) →
            string_bytes self.old.text ++ text_from (map byte plain.now ++ more) self.old.high
            ≡ string_bytes self.new.text ++ text_from more self.new.high) }
    {
        if !plain.is_empty() {
            self.flush()?;
            self.text.push_str(plain)?;
        }
        Ok(())
    }

    /// Puts what an escape stands for.
    pub fn push_escape(&mut self, escape: Escape) -> Result<(), OutOfMemory>
        ensures { OnOk result ((p : Piece) (more : List Piece) → IsEscape p escape →
            string_bytes self.old.text ++ text_from (p ∷ more) self.old.high
            ≡ string_bytes self.new.text ++ text_from more self.new.high) }
    {
        match escape {
            Escape::Char(char) => {
                self.flush()?;
                self.text.push(char as char)?;
                Ok(())
            }
            Escape::Unit(unit) => self.push_unit(unit),
        }
    }

    /// The whole text.
    pub fn finish(mut self) -> Result<String, OutOfMemory>
        ensures { IfOk result (λ s. string_bytes s ≡ string_bytes self.text ++ text_from [] self.high) }
    {
        self.flush()?;
        self.text.shrink_to_fit();
        let Decoded { text, high: _ } = self;
        Ok(text)
    }

    fn push_unit(&mut self, unit: u16) -> Result<(), OutOfMemory>
        ensures { OnOk result ((rest : Option ℕ → List ℕ) →
            string_bytes self.old.text ++ after_unit (joined self.old.high unit) self.old.high unit rest
            ≡ string_bytes self.new.text ++ rest self.new.high) }
    {
        match self.high {
            Some(high) if is_low(unit) => {
                self.high = None;
                self.text.push(pair(high, unit))?;
            }
            _ if is_high(unit) => {
                self.flush()?;
                self.high = Some(unit);
            }
            _ => {
                self.flush()?;
                self.text.push(lone_char(unit))?;
            }
        }
        Ok(())
    }

    /// Puts U+FFFD for a high surrogate whose partner did not come.
    fn flush(&mut self) -> Result<(), OutOfMemory>
        ensures text { OnOk result (string_bytes self.new.text ≡ string_bytes self.old.text ++ flushed self.old.high) }
        ensures high { OnOk result (self.new.high ≡ None) }
    {
        if let Some(high) = self.high.take() {
            self.text.push(lone_char(high))?;
        }
        Ok(())
    }
}

fn is_high(unit: u16) -> bool
    ensures { result ≡ is_high_surrogate unit }
{
    0xD800 <= unit && unit < 0xDC00
}

fn is_low(unit: u16) -> bool
    ensures { result ≡ is_low_surrogate unit }
{
    0xDC00 <= unit && unit < 0xE000
}

/// The character of a unit that has no partner.
fn lone_char(unit: u16) -> char
    ensures { encode_utf8 result ≡ lone unit }
{
    char::from_u32(u32::from(unit)).unwrap_or(char::REPLACEMENT_CHARACTER)
}

/// The character of a pair.
fn pair(high: u16, low: u16) -> char
    requires high { is_high_surrogate high ≡ true }
    requires low { is_low_surrogate low ≡ true }
    ensures { result ≡ surrogate_pair_char high low }
{
    let code = 0x1_0000 + u32::from(high - 0xD800) * 0x400 + u32::from(low - 0xDC00);
    char::from_u32(code).unwrap_or(char::REPLACEMENT_CHARACTER)
}
