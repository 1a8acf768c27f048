/// What a component is as it is begun.
#[derive(Clone, Copy, Debug, PartialEq, Eq)]
pub enum Begun {
    /// It stands whole under its name.
    Complete,
    /// Its pieces are to be fetched.
    Open,
}
