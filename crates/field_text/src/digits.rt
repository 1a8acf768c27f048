//! Digits, and characters that are repeated.
ghost use Rattle.std.specs.Prelude.{◌≡◌, ◌^◌, ◌<◌, ◌≤◌, ◌++◌, replicate, OnOk};
ghost use Rattle.std.specs.String.{string_bytes};
ghost use Rattle.text_base.specs.NumberText.{padded};
ghost use Rattle.field_text.specs.Numbers as spec;

use text_base::OutOfMemory;

/// Appends the last so many digits of a number.
pub fn push_last_digits(out: &mut String, n: u128, count: u32) -> Result<(), OutOfMemory>
    requires { count ≤ 9 }
    ensures { OnOk result (string_bytes out.new ≡ string_bytes out.old ++ spec.last_digits count n) }
{
    let unit = 10u128.pow(count);
    push_padded(out, (n % unit) as u32, count)
}

/// Appends a number below a power of 10 as that many digits.
fn push_padded(out: &mut String, n: u32, digits: u32) -> Result<(), OutOfMemory>
    requires few { digits ≤ 9 }
    requires below { n < 10 ^ digits }
    ensures { OnOk result (string_bytes out.new ≡ string_bytes out.old ++ padded digits n) }
{
    let mut rest = n;
    let mut places = digits;
    while places > 0 {
        places -= 1;
        let unit = 10u32.pow(places);
        out.push(char::from(b'0' + (rest / unit) as u8))?;
        rest %= unit;
    }
    Ok(())
}

/// Appends a character of ASCII so many times.
pub fn push_times(out: &mut String, letter: char, count: usize) -> Result<(), OutOfMemory>
    requires { letter < 128 }
    ensures { OnOk result (string_bytes out.new ≡ string_bytes out.old ++ replicate count letter) }
{
    for _ in 0..count {
        out.push(letter)?;
    }
    Ok(())
}
