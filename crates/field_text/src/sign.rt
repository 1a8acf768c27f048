/// What stands before a number that is not negative. Before a negative one stands a minus.
#[derive(Clone, Copy, Debug, PartialEq, Eq)]
pub enum Sign {
    /// Nothing.
    Minus,
    Plus,
    Space,
}
