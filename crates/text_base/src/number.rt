ghost use Rattle.std.specs.Prelude.{◌<◌, ◌^◌, unsigned_abs};

/// A decimal number: a count of thousand-millionths.
#[derive(Clone, Copy, Debug)]
pub struct Dec {
    pub nano: i128,
    ghost in_range: { unsigned_abs nano < 10 ^ 27 },
}

/// A number of an information file.
#[derive(Clone, Copy, Debug)]
pub enum Num {
    /// A number without a fraction and without an exponent.
    Int(i64),
    /// Any other number.
    Dec(Dec),
}
