//! The numbers in promises' names.
ghost use Rattle.std.specs.Prelude.{◌≡◌, ◌^◌, ◌≤◌, ◌<◌, ◌↔◌, IsTrue, IfSome, IfNone};
ghost use Rattle.keep_store.specs.Promise.{IsNumber, number_of};

/// Whether these are digits without zeros before them.
pub(crate) fn is_number(digits: &[u8]) -> bool
    ensures { IsTrue result ↔ IsNumber digits.now }
{
    match digits {
        [] => false,
        [b'0', more @ ..] => more.is_empty(),
        digits => digits.iter().all(|digit| digit.is_ascii_digit()),
    }
}

/// The number that digits spell. None where it takes more than 64 bits.
pub(crate) fn number(digits: &[u8]) -> Option<u64>
    requires { IsNumber digits.now }
    ensures some { IfSome result (λ number. number ≡ number_of digits.now) }
    ensures none { IfNone result (2 ^ 64 ≤ number_of digits.now) }
{
    let mut number = 0u64;
    for digit in digits {
        let tens = number.checked_mul(10)?;
        number = tens.checked_add(u64::from(digit - b'0'))?;
    }
    Some(number)
}
