/// How a tree is printed as JSON.
#[derive(Clone, Copy, Debug, PartialEq, Eq)]
pub struct Style {
    /// Each entry of a list or a map stands on a line of its own.
    pub pretty: bool,
    /// Characters past U+007E are escaped.
    pub ascii: bool,
}
