use text_base::Text;

/// A resource: its URL and its bytes.
#[derive(Debug, Drop)]
pub struct Page {
    pub url: Text,
    pub bytes: Vec<u8>,
}
