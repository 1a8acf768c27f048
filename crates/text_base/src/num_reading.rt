ghost use Rattle.std.specs.Prelude.{◌≡◌, ◌+◌, ◌<◌, ◌≤◌, ◌↔◌, length, IfOk, Ok, Err, Some, None};
ghost use Rattle.text_base.specs.Number.{number_of};
ghost use Rattle.text_base.specs.Reading.{spelling_at, value_at};

use crate::num_fault::NumFault;
use crate::num_spelling::spelled_at_front;
use crate::num_value::value_of;
use crate::number::Num;

/// The most bytes in the spelling of a number.
const SPELLING_END: usize = 64;

/// The longest JSON number that begins at `at`, and the place after it.
pub fn read_num(bytes: &[u8], at: usize) -> Result<(Num, usize), NumFault>
    requires { at ≤ length bytes.now }
    ensures number { IfOk result (λ r. value_at bytes.now at ≡ Some (number_of r.0)) }
    ensures place { IfOk result (λ r. r.1 ≡ at + length (spelling_at bytes.now at)) }
    ensures begins { IfOk result (λ _. 0 < length (spelling_at bytes.now at)) }
    ensures not_number { result ≡ Err NumFault.NotNumber ↔ length (spelling_at bytes.now at) ≡ 0 }
    ensures long { result ≡ Err NumFault.NumberLong ↔ 64 < length (spelling_at bytes.now at) }
    ensures range { let n = length (spelling_at bytes.now at) in
        result ≡ Err NumFault.NumberRange ↔ ((0 < n) × (n ≤ 64) × (value_at bytes.now at ≡ None)) }
{
    let rest = &bytes[at..];
    let Some((spelled, behind)) = spelled_at_front(rest) else {
        return Err(NumFault::NotNumber);
    };
    let length = rest.len() - behind.len();
    if length > SPELLING_END {
        return Err(NumFault::NumberLong);
    }
    match value_of(&spelled) {
        Some(num) => Ok((num, at + length)),
        None => Err(NumFault::NumberRange),
    }
}
