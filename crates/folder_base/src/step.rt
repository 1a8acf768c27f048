use text_base::Text;

/// What a folder in memory has done.
#[derive(Drop)]
pub(crate) enum Step {
    Created { name: Text },
    Appended { name: Text, bytes: Vec<u8> },
    Cut { name: Text, len: u64 },
    Synced { name: Text },
    Renamed { from: Text, to: Text },
    Removed { name: Text },
    Settled,
}
