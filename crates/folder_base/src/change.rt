use crate::was::Was;
use text_base::Text;

/// A name that a change touched, and what it had before.
#[derive(Drop)]
pub(crate) struct Change {
    pub(crate) name: Text,
    pub(crate) was: Was,
}
