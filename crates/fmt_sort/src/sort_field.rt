use crate::limit::Limit;
use crate::sort_key::SortKey;

/// A field of an order, as a piece of a sort word gives it.
#[derive(Clone, Copy, Debug)]
pub struct SortField {
    pub key: SortKey,
    /// Whether `+` stands: the smallest is best.
    pub is_reversed: bool,
    /// Whether `~` stands: what is nearest to the limit is best.
    pub is_nearest: bool,
    pub limit: Option<Limit>,
}
