use text_base::Text;

/// What is to be had as one file: its parts, by their places among an item's formats, and the
/// file's extension.
#[derive(Drop)]
pub struct Combo {
    pub parts: Vec<usize>,
    pub ext: Text,
}
