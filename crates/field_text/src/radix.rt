/// What the digits of a whole number count.
#[derive(Clone, Copy, Debug, PartialEq, Eq)]
pub enum Radix {
    Decimal,
    Octal,
    LowerHex,
    UpperHex,
}
