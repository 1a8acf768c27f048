use text_base::Text;

/// What a plan says of one piece.
#[derive(Debug, Drop)]
pub enum Line {
    /// It is fetched from this URL.
    Url(Text),
    /// It has no URL that it could be fetched from.
    NoUrl,
}
