/// The flags of a conversion. Each may stand several times, in any order.
#[derive(Clone, Copy, Debug, PartialEq, Eq)]
pub struct Flags {
    /// `#`
    pub alternate: bool,
    /// `0`
    pub zero: bool,
    /// `-`
    pub left: bool,
    /// `+`
    pub plus: bool,
    /// a space
    pub space: bool,
}

/// The type letter of a conversion.
#[derive(Clone, Copy, Debug, PartialEq, Eq)]
pub enum Kind {
    /// `d`, `i` or `u`
    Integer,
    /// `o`
    Octal,
    /// `x`
    LowerHex,
    /// `X`
    UpperHex,
    /// `f` or `F`
    Decimal,
    /// `s`
    Text,
    /// `B`
    Bytes,
    /// `j`
    Json,
    /// `h`
    Html,
    /// `l`
    List,
    /// `q`
    Quoted,
    /// `D`
    Suffixed,
    /// `S`
    Sanitized,
    /// `U`
    Unicode,
}

/// How a value is printed.
#[derive(Clone, Copy, Debug, PartialEq, Eq)]
pub struct Conv {
    pub flags: Flags,
    /// At most five digits.
    pub width: Option<u32>,
    /// At most five digits.
    pub precision: Option<u32>,
    pub kind: Kind,
}
