ghost use Rattle.std.specs.Prelude.{◌≡◌, ◌≢◌, ◌<◌, ◌≤◌, ◌∷◌, ◌++◌, None, IfOk, IfErr, IfSome, IfNone, length, map, slice_index};
ghost use Rattle.std.specs.Option.{option_map};
ghost use Rattle.std.specs.Str.{IsUtf8};
ghost use Rattle.info_tree.specs.Token.{after_space, is_space, byte, ArePieces};
ghost use Rattle.info_tree.specs.Lexed.{plain_mark, Lexes, NoneBegins, IsTokenFault, IsString, NoString, sign_at, IsLetter};
ghost use Rattle.info_tree.specs.Machine.{mark_of};

use crate::ascii::{behind_word, split_ascii, split_plain};
use crate::decoded::Decoded;
use crate::escape::read_escape;
use std::alloc::Global;
use text_base::{Num, NumFault, OutOfMemory, Text, read_num};

/// A token of a JSON text (RFC 8259, section 2).
#[derive(Drop)]
pub enum Token {
    BeginList,
    EndList,
    BeginMap,
    EndMap,
    Comma,
    Colon,
    Null,
    Bool(bool),
    Number(Num),
    Text(Text),
}

/// Why a token was not made.
#[derive(Clone, Copy)]
pub enum TokenFault {
    Number(NumFault),
    OutOfMemory,
}

impl From<OutOfMemory> for TokenFault {
    ghost use Rattle.info_tree.specs.declared.token.TokenFault.TheVariants as fault;

    ghost from_gives = { λ _ e. e ≡ fault.OutOfMemory };

    fn from(_: OutOfMemory) -> Self {
        TokenFault::OutOfMemory
    }
}

/// What follows the white space at the front.
pub fn skip_space(text: &str) -> &str
    ensures rest { result.now ≡ after_space text.now }
    ensures len { length result.now ≤ length text.now }
{
    let mut rest = text;
    while let Some((byte, after)) = split_ascii(rest) {
        if !is_white(byte) {
            return rest;
        }
        rest = after;
    }
    rest
}

fn is_white(byte: u8) -> bool
    ensures { result ≡ is_space byte }
{
    byte == b' ' || byte == b'\t' || byte == b'\n' || byte == b'\r'
}

/// The token at the front, and what follows it.
pub fn first_token(alloc: Global, text: &str) -> Result<Option<(Token, &str)>, TokenFault>
    ensures token { IfOk result (λ o. IfSome o (λ p. Lexes text.now (plain_mark p.0) p.1.now)) }
    ensures text { IfOk result (λ o. IfSome o (λ p. IsUtf8 p.1.now)) }
    ensures none { IfOk result (λ o. IfNone o (NoneBegins text.now)) }
    ensures fault { IfErr result (IsTokenFault text.now) }
{
    let Some((byte, after)) = split_ascii(text) else {
        return Ok(None);
    };
    if let Some(token) = sign(byte) {
        return Ok(Some((token, after)));
    }
    match byte {
        b'"' => string_token(alloc, text, after),
        b'n' | b't' | b'f' => Ok(word_token(text)),
        _ => number_token(text),
    }
}

/// The token that a byte alone is.
fn sign(byte: u8) -> Option<Token>
    ensures { option_map plain_mark result ≡ option_map mark_of (sign_at byte) }
{
    match byte {
        b'[' => Some(Token::BeginList),
        b']' => Some(Token::EndList),
        b'{' => Some(Token::BeginMap),
        b'}' => Some(Token::EndMap),
        b',' => Some(Token::Comma),
        b':' => Some(Token::Colon),
        _ => None,
    }
}

/// A string, of which the opening quote was seen.
fn string_token<'a>(
    alloc: Global,
    text: &'a str,
    after: &'a str,
) -> Result<Option<(Token, &'a str)>, TokenFault>
    requires { text.now ≡ 34 ∷ after.now }
    ensures token { IfOk result (λ o. IfSome o (λ p. Lexes text.now (plain_mark p.0) p.1.now)) }
    ensures text { IfOk result (λ o. IfSome o (λ p. IsUtf8 p.1.now)) }
    ensures none { IfOk result (λ o. IfNone o (NoneBegins text.now)) }
    ensures fault { IfErr result (IsTokenFault text.now) }
{
    let _ = text;
    let read = string(alloc, after)?;
    match read {
        Some((string, rest)) => Ok(Some((Token::Text(string), rest))),
        None => Ok(None),
    }
}

/// One of the three words.
fn word_token(text: &str) -> Option<(Token, &str)>
    requires { IsLetter (slice_index text.now 0) }
    ensures token { IfSome result (λ p. Lexes text.now (plain_mark p.0) p.1.now) }
    ensures text { IfSome result (λ p. IsUtf8 p.1.now) }
    ensures none { IfNone result (NoneBegins text.now) }
{
    if let Some(rest) = behind_word(text, "null") {
        return Some((Token::Null, rest));
    }
    if let Some(rest) = behind_word(text, "true") {
        return Some((Token::Bool(true), rest));
    }
    if let Some(rest) = behind_word(text, "false") {
        return Some((Token::Bool(false), rest));
    }
    None
}

/// A number, where one begins.
fn number_token(text: &str) -> Result<Option<(Token, &str)>, TokenFault>
    requires sign { sign_at (slice_index text.now 0) ≡ None }
    requires quote { slice_index text.now 0 ≢ 34 }
    requires letter { IsLetter (slice_index text.now 0) → ⊥ }
    ensures token { IfOk result (λ o. IfSome o (λ p. Lexes text.now (plain_mark p.0) p.1.now)) }
    ensures text { IfOk result (λ o. IfSome o (λ p. IsUtf8 p.1.now)) }
    ensures none { IfOk result (λ o. IfNone o (NoneBegins text.now)) }
    ensures fault { IfErr result (IsTokenFault text.now) }
{
    match read_num(text.as_bytes(), 0) {
        Ok((number, end)) => Ok(Some((Token::Number(number), &text[end..]))),
        Err(fault) => match fault {
            NumFault::NotNumber => Ok(None),
            NumFault::NumberRange => Err(TokenFault::Number(fault)),
            NumFault::NumberLong => Err(TokenFault::Number(fault)),
        },
    }
}

/// The text of a string behind its opening quote, and what follows its closing one.
fn string(alloc: Global, text: &str) -> Result<Option<(Text, &str)>, OutOfMemory>
    ensures string { IfOk result (λ o. IfSome o (λ p. IsString text.now p.0 p.1.now)) }
    ensures text { IfOk result (λ o. IfSome o (λ p. IsUtf8 p.1.now)) }
    ensures none { IfOk result (λ o. IfNone o (NoString text.now)) }
{
    let (plain, marked) = split_plain(text);
    match split_ascii(marked) {
        Some((byte, after)) if byte == b'"' => { Ok(Some((Text::new(alloc, plain)?, after))) }
        _ => marked_string(alloc, text, plain, marked),
    }
}

/// The same of a string that begins with these bytes and does not end behind them.
fn marked_string<'a>(
    alloc: Global,
    text: &'a str,
    plain: &'a str,
    marked: &'a str,
) -> Result<Option<(Text, &'a str)>, OutOfMemory>
    requires whole { text.now ≡ plain.now ++ marked.now }
    requires pieces { ArePieces (map byte plain.now) }
    ensures string { IfOk result (λ o. IfSome o (λ p. IsString text.now p.0 p.1.now)) }
    ensures text { IfOk result (λ o. IfSome o (λ p. IsUtf8 p.1.now)) }
    ensures none { IfOk result (λ o. IfNone o (NoString text.now)) }
{
    let _ = text;
    let mut decoded = Decoded::new(alloc, plain)?;
    let mut rest = marked;
    'pieces: loop {
        let (plain, marked) = split_plain(rest);
        decoded.push_plain(plain)?;
        let Some((byte, after)) = split_ascii(marked) else {
            return Ok(None);
        };
        if byte == b'"' {
            return Ok(Some((Text::from(decoded.finish()?), after)));
        }
        if byte != b'\\' {
            return Ok(None);
        }
        let Some((escape, behind)) = read_escape(after) else {
            return Ok(None);
        };
        decoded.push_escape(escape)?;
        rest = behind;
    }
}
