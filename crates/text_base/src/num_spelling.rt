//! How the number at the front of a text is spelled (RFC 8259, section 6).

ghost use Rattle.std.specs.Prelude.{◌≡◌, ◌==◌, ◌+◌, ◌<◌, ◌≤◌, drop, length, slice_index, take, IfNone, IfSome};
ghost use Rattle.text_base.specs.Spelling.{is_digit, digits_length, minus_length, sign_length, int_length, frac_length, exp_length, number_length};
ghost use Rattle.text_base.specs.Value.{parts};
ghost use Rattle.text_base.specs.Spelled.{StandsAtFront};

/// The parts of a spelled number.
#[derive(Clone, Copy)]
pub struct Spelled<'a> {
    pub is_negative: bool,
    /// The digits before the point.
    pub int: &'a [u8],
    /// The digits behind the point.
    pub frac: &'a [u8],
    pub exponent_is_negative: bool,
    /// The digits of the exponent.
    pub exponent: &'a [u8],
    /// It has no point and no exponent.
    pub is_whole: bool,
}

pub fn digits_len(bytes: &[u8]) -> usize
    ensures count { result ≡ digits_length bytes.now }
    ensures within { result ≤ length bytes.now }
{
    for (at, byte) in bytes.iter().enumerate() {
        if !byte.is_ascii_digit() {
            return at;
        }
    }
    bytes.len()
}

fn minus_len(bytes: &[u8]) -> usize
    ensures minus { result ≡ minus_length bytes.now }
    ensures within { result ≤ length bytes.now }
{
    match bytes {
        [b'-', ..] => 1,
        _ => 0,
    }
}

fn sign_len(bytes: &[u8]) -> usize
    ensures sign { result ≡ sign_length bytes.now }
    ensures within { result ≤ length bytes.now }
{
    match bytes {
        [b'+' | b'-', ..] => 1,
        _ => 0,
    }
}

fn int_len(bytes: &[u8]) -> usize
    ensures int { result ≡ int_length bytes.now }
    ensures within { result ≤ length bytes.now }
{
    match bytes {
        [b'0', ..] => 1,
        _ => digits_len(bytes),
    }
}

fn frac_len(bytes: &[u8]) -> usize
    ensures frac { result ≡ frac_length bytes.now }
    ensures within { result ≤ length bytes.now }
{
    match bytes {
        [b'.', digits @ ..] => match digits_len(digits) {
            0 => 0,
            count => 1 + count,
        },
        _ => 0,
    }
}

fn exp_len(bytes: &[u8]) -> usize
    ensures exp { result ≡ exp_length bytes.now }
    ensures within { result ≤ length bytes.now }
{
    match bytes {
        [b'e' | b'E', signed @ ..] => {
            let sign = sign_len(signed);
            match digits_len(&signed[sign..]) {
                0 => 0,
                count => 1 + sign + count,
            }
        }
        _ => 0,
    }
}

/// The digits of frac, without its point.
fn frac_digits(frac: &[u8]) -> &[u8]
    ensures { result.now ≡ drop 1 frac.now }
{
    match frac {
        [_, digits @ ..] => digits,
        [] => frac,
    }
}

/// The digits of exp, without its mark and its sign.
fn exp_digits(exp: &[u8]) -> &[u8]
    ensures { result.now ≡ drop (1 + sign_length (drop 1 exp.now)) exp.now }
{
    match exp {
        [_, signed @ ..] => &signed[sign_len(signed)..],
        [] => exp,
    }
}

/// Whether exp has a minus sign.
fn exp_is_negative(exp: &[u8]) -> bool
    ensures { result ≡ (slice_index exp.now 1 == 45) }
{
    matches!(exp, [_, b'-', ..])
}

/// The parts of the number at the front, and the bytes behind it.
pub fn spelled_at_front(bytes: &[u8]) -> Option<(Spelled<'_>, &[u8])>
    ensures none { IfNone result (number_length bytes.now ≡ 0) }
    ensures some { IfSome result (λ p. StandsAtFront bytes.now p.0 p.1.now) }
{
    let (minus, from_int) = bytes.split_at(minus_len(bytes));
    let (int, from_frac) = from_int.split_at(int_len(from_int));
    if int.is_empty() {
        return None;
    }
    let (frac, from_exp) = from_frac.split_at(frac_len(from_frac));
    let (exp, behind) = from_exp.split_at(exp_len(from_exp));
    let spelled = Spelled {
        is_negative: !minus.is_empty(),
        int,
        frac: frac_digits(frac),
        exponent_is_negative: exp_is_negative(exp),
        exponent: exp_digits(exp),
        is_whole: behind.len() == from_frac.len(),
    };
    Some((spelled, behind))
}
