/// Why a reader of selectors gives up, without the place.
#[derive(Clone, Copy, Debug, PartialEq, Eq)]
pub enum SelKind {
    Syntax,
    /// A quote without its partner.
    Quote,
    Field,
    Value,
    Regex,
    Depth,
}
