use crate::header::Header;
use text_base::Text;

/// What one request fetches: a resource, by its URL and the fields that are sent for it.
#[derive(Debug, Drop)]
pub struct Piece {
    pub url: Text,
    pub headers: Vec<Header>,
}
