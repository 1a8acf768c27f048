//! A law of how numbers are spelled.

ghost use Rattle.std.specs.Prelude.{ℕ, ◌<◌, ◌≤◌, length, take};
ghost use Rattle.text_base.specs.Grammar.{IsNumber};
ghost use Rattle.text_base.specs.Spelling.{number_length};

/// Law: what `number_length` measures at the front is a number by the grammar, and no longer
/// front is one.
pub fn longest_number_at_front(_bytes: &[u8])
    ensures is_number { let n = number_length _bytes.now in 0 < n → IsNumber (take n _bytes.now) }
    ensures is_longest { let n = number_length _bytes.now in
        (k : ℕ) → k ≤ length _bytes.now → IsNumber (take k _bytes.now) → k ≤ n }
{}
