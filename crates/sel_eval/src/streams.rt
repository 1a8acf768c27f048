use text_base::Text;

/// What a merge may take, and which containers are asked for.
#[derive(Debug, Drop)]
pub struct Streams {
    /// Whether several parts of a merge may have video.
    pub video: bool,
    /// Whether several parts of a merge may have audio.
    pub audio: bool,
    /// The containers that a merge is written to, the best first: the first that takes all its parts, else the
    /// last. Where it is empty: `mp4`, `webm`, `mkv`.
    pub merge_ext: Vec<Text>,
}
