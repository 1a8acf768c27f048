//! The normal forms of Unicode.
ghost use Rattle.std.specs.Prelude.{◌≡◌, IfOk, encode_utf8_all};
ghost use Rattle.std.specs.Str.{chars};
ghost use Rattle.unicode_normalization.specs.Forms.{normalize};

use std::alloc::Global;
use text_base::{OutOfMemory, Text};
use unicode_normalization::{Form, to_nfc, to_nfd, to_nfkc, to_nfkd};

/// The text in a normal form (The Unicode Standard, 3.11).
pub fn normal_form(alloc: Global, text: &str, form: Form) -> Result<Text, OutOfMemory>
    ensures { IfOk result (λ t. t ≡ encode_utf8_all (normalize form (chars text.now))) }
{
    Ok(Text::from(match form {
        Form::Nfc => to_nfc(alloc, text)?,
        Form::Nfd => to_nfd(alloc, text)?,
        Form::Nfkc => to_nfkc(alloc, text)?,
        Form::Nfkd => to_nfkd(alloc, text)?,
    }))
}
