use text_base::Text;

/// A field of a request.
#[derive(Debug, Drop)]
pub struct Header {
    pub name: Text,
    pub value: Text,
}
