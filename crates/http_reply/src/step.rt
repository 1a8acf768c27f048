use crate::stop::Stop;

/// What is to be done with the bytes at hand.
#[derive(Clone, Copy)]
pub enum Step {
    /// More are needed.
    Need,
    /// So many are no content.
    Pass(usize),
    /// So many are content.
    Take(usize),
    /// The body stops here.
    End(Stop),
}
