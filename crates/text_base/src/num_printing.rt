ghost use Rattle.std.specs.Prelude.{◌≡◌, ◌+◌, ◌^◌, ◌<◌, ◌≤◌, ◌++◌, length, Some};
ghost use Rattle.arrayvec.specs.ArrayString.{array_string_len};
ghost use Rattle.text_base.specs.Number.{whole, decimal, number_of};
ghost use Rattle.text_base.specs.NumberText.{padded, trimmed, text_of};
ghost use Rattle.text_base.specs.Spelling.{number_length};
ghost use Rattle.text_base.specs.Value.{number_value};

use crate::number::{Dec, Num};
use arrayvec::ArrayString;
use itoa::Buffer;

/// The thousand-millionths in 1.
const UNIT: u128 = 1_000_000_000;

/// Appends the nine decimals of a count of thousand-millionths, without the zeros at their end
/// but at least one.
fn push_decimals(text: &mut ArrayString<40>, count: u32)
    requires below { count < 10 ^ 9 }
    requires room { array_string_len text.old + 9 ≤ 40 }
    ensures { text.new.bytes ≡ text.old.bytes ++ trimmed (padded 9 count) }
{
    let mut rest = count;
    let mut places = 9;
    loop {
        places -= 1;
        let place = 10u32.pow(places);
        text.push(char::from(b'0' + (rest / place) as u8));
        rest %= place;
        if rest == 0 {
            return;
        }
    }
}

fn int_text(n: i64) -> ArrayString<40>
    ensures { result.bytes ≡ text_of (whole n) }
{
    let mut text = ArrayString::new();
    text.push_str(Buffer::new().format(n));
    text
}

fn dec_text(dec: Dec) -> ArrayString<40>
    ensures { result.bytes ≡ text_of (decimal dec.nano) }
{
    let mut text = ArrayString::new();
    let size = dec.nano.unsigned_abs();
    if dec.nano < 0 {
        text.push('-');
    }
    text.push_str(Buffer::new().format((size / UNIT) as u64));
    text.push('.');
    push_decimals(&mut text, (size % UNIT) as u32);
    text
}

/// The text of a number: one JSON number, which reads back to the same number.
pub fn num_text(num: Num) -> ArrayString<40>
    ensures text { result.bytes ≡ text_of (number_of num) }
    ensures is_number { number_length result.bytes ≡ length result.bytes }
    ensures reads_back { number_value result.bytes ≡ Some (number_of num) }
{
    match num {
        Num::Int(n) => int_text(n),
        Num::Dec(dec) => dec_text(dec),
    }
}
