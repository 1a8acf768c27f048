ghost use Rattle.std.specs.Prelude.{◌≡◌, ℕ, List, ◌<◌, ◌≤◌, ◌∷◌, ◌++◌, length, map, true, slice_index, IfSome, IfNone};
ghost use Rattle.std.specs.Str.{IsUtf8};
ghost use Rattle.text_base.specs.Scan.{is_json_special};
ghost use Rattle.info_tree.specs.Token.{byte, ArePieces};

use text_base::first_json_special;

/// The first byte, where it is ASCII, and what follows it.
pub fn split_ascii(text: &str) -> Option<(u8, &str)>
    ensures some { IfSome result (λ p. text.now ≡ p.0 ∷ p.1.now) }
    ensures text { IfSome result (λ p. IsUtf8 p.1.now) }
    ensures none { IfNone result (0 < length text.now → 128 ≤ slice_index text.now 0) }
{
    match text.as_bytes() {
        [byte, ..] if *byte < 128 => Some((*byte, &text[1..])),
        _ => None,
    }
}

/// What follows a word at the front.
pub fn behind_word<'a>(text: &'a str, word: &str) -> Option<&'a str>
    ensures some { IfSome result (λ rest. text.now ≡ word.now ++ rest.now) }
    ensures text { IfSome result (λ rest. IsUtf8 rest.now) }
    ensures none { IfNone result ((rest : List ℕ) → text.now ≡ word.now ++ rest → ⊥) }
{
    text.strip_prefix(word)
}

/// The bytes before the first one that ends a run of plain bytes, and what stands from it on.
pub fn split_plain(text: &str) -> (&str, &str)
    ensures whole { text.now ≡ result.0.now ++ result.1.now }
    ensures plain { ArePieces (map byte result.0.now) }
    ensures special { 0 < length result.1.now → is_json_special (slice_index result.1.now 0) ≡ true }
{
    let end = first_json_special(text.as_bytes(), 0);
    (&text[..end], &text[end..])
}
