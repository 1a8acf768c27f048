use text_base::Text;

/// A file of a folder in memory: its name and its bytes.
#[derive(Drop)]
pub struct File {
    pub name: Text,
    pub bytes: Vec<u8>,
}
