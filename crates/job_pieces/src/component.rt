//! The files that a job fetches.

use link_http::Piece;
use text_base::Text;

/// A file that is put together from pieces.
#[derive(Drop)]
pub struct Component {
    pub name: Text,
    pub pieces: Vec<Piece>,
    /// Whether the pieces are those of a list of fragments.
    pub fragments: bool,
}
