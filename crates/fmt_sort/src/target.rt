use crate::sort_key::SortKey;

/// The fields that a name stands for.
#[derive(Clone, Copy, Debug)]
pub(crate) enum Target {
    One(SortKey),
    Two(SortKey, SortKey),
}
