//! Fields as pieces give them, before it is known whether free formats are preferred.

ghost use Rattle.std.specs.Prelude.{◌≡◌};
ghost use Rattle.fmt_sort.specs.Spec.{bound_of, bound_when, given_bound_of, given_of, wanted_of, wanted_when};

use crate::limit::Limit;
use crate::sort_field::SortField;
use crate::sort_key::SortKey;
use text_base::Num;

/// A limit as a piece gives it.
#[derive(Clone, Copy, Debug)]
pub(crate) enum GivenLimit {
    Number(Num),
    /// The points of a text in the field's row, as usual and where free formats are preferred.
    Points { usual: u8, preferred: u8 },
}

impl GivenLimit {
    fn settled(self, free: bool) -> Limit
        ensures { bound_of result ≡ bound_when free (given_bound_of self) }
    {
        match self {
            GivenLimit::Number(number) => Limit::Number(number),
            GivenLimit::Points { preferred, .. } if free => Limit::Points(preferred),
            GivenLimit::Points { usual, .. } => Limit::Points(usual),
        }
    }
}

/// A field of an order, as a piece gives it.
#[derive(Clone, Copy, Debug)]
pub(crate) struct GivenField {
    pub key: SortKey,
    pub is_reversed: bool,
    pub is_nearest: bool,
    pub limit: Option<GivenLimit>,
}

impl GivenField {
    /// The field that this is where free formats are preferred, or where they are not.
    pub fn settled(self, free: bool) -> SortField
        ensures { wanted_of result ≡ wanted_when free (given_of self) }
    {
        SortField {
            key: self.key,
            is_reversed: self.is_reversed,
            is_nearest: self.is_nearest,
            limit: self.limit.map(|limit| limit.settled(free)),
        }
    }
}
