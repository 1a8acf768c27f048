use crate::filter::Filter;
use crate::pick::Pick;

/// What is wanted of an item's formats.
pub enum Sel {
    /// Each of these, one after the other.
    List(Vec<Sel>),
    /// The first of these that has a choice.
    First(Vec<Sel>),
    /// These merged, one choice of each.
    Merge(Vec<Sel>),
    /// The same, of the formats that meet the filter.
    Narrow(Box<Sel>, Filter),
    Name(Pick),
}

impl Drop for Sel {
    /// Goes down a chain of filters by a loop, so that a long one takes no stack.
    fn drop(mut self) {
        loop {
            match self {
                Sel::Narrow(inner, _) => self = Box::into_inner(inner),
                Sel::List(_) | Sel::First(_) | Sel::Merge(_) | Sel::Name(_) => return,
            }
        }
    }
}
