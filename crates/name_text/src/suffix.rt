//! Large numbers in short.
ghost use Rattle.std.specs.Prelude.{◌≡◌, ◌⊎◌, ◌≤◌, ◌/◌, ◌^◌, IfOk};
ghost use Rattle.text_base.specs.Number.{number_of};
ghost use Rattle.name_text.specs.Suffix.{with_suffix, suffix_of, power_within};

use itoa::Buffer;
use std::alloc::Global;
use text_base::{Num, OutOfMemory, Text, nano};

/// The thousand-millionths in 1.
const UNIT: u128 = 1_000_000_000;

/// The number in its greatest power of the factor, 1000 or 1024, cut off toward 0: 1500000 is `1M` or `1Mi`.
pub fn decimal_suffix(alloc: Global, n: Num, factor: u16) -> Result<Text, OutOfMemory>
    requires { (factor ≡ 1000) ⊎ (factor ≡ 1024) }
    ensures { IfOk result (λ t. t ≡ with_suffix (number_of n) factor) }
{
    let nano = nano(n);
    let size = (nano.unsigned_abs() / UNIT) as u64;
    let (count, power) = scaled(size, factor);
    let mut out = String::new(alloc);
    if nano < 0 && count > 0 {
        out.push('-')?;
    }
    out.push_str(Buffer::new().format(count))?;
    out.push_str(suffix(factor, power))?;
    Ok(Text::from(out))
}

/// The size in its greatest power of the factor, cut off, and that power.
fn scaled(size: u64, factor: u16) -> (u64, u32)
    requires { (factor ≡ 1000) ⊎ (factor ≡ 1024) }
    ensures power { result.1 ≡ power_within factor size }
    ensures few { result.1 ≤ 5 }
    ensures count { result.0 ≡ size / factor ^ result.1 }
{
    let factor = u64::from(factor);
    let mut count = size;
    let mut power = 0;
    while power < 5 && factor <= count {
        count /= factor;
        power += 1;
    }
    (count, power)
}

/// The suffix of a power of the factor.
fn suffix(factor: u16, power: u32) -> &'static str
    requires { power ≤ 5 }
    ensures { result.now ≡ suffix_of factor power }
{
    match (power, factor) {
        (0, _) => "",
        (1, 1000) => "k",
        (2, 1000) => "M",
        (3, 1000) => "G",
        (4, 1000) => "T",
        (_, 1000) => "P",
        (1, _) => "Ki",
        (2, _) => "Mi",
        (3, _) => "Gi",
        (4, _) => "Ti",
        _ => "Pi",
    }
}
