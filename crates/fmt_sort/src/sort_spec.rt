use crate::sort_field::SortField;

/// How formats are sorted.
#[derive(Debug, Drop)]
pub struct SortSpec {
    /// Whether extensions of free formats are preferred.
    pub free: bool,
    /// The fields in their order; each stands once.
    pub fields: Vec<SortField>,
}
