/// What of a body is to be taken, and how many bytes of it were passed.
#[derive(Clone, Copy)]
pub enum Share {
    /// What comes after so many bytes.
    After { skip: u64, passed: u64 },
    /// So many bytes.
    Upto { left: u64, passed: u64 },
}
