use text_base::Text;

/// Which of a folder's names are meant.
#[derive(Drop)]
pub(crate) enum Side {
    All,
    /// Those of the part with this stem.
    Part { stem: Text },
    /// Those that are no part's.
    Rest,
}
