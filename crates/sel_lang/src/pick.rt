use text_base::Text;

/// Which streams the candidates of a special name have.
#[derive(Clone, Copy, Debug, PartialEq, Eq)]
pub enum Media {
    Any,
    Video,
    Audio,
}

/// Which formats a name stands for.
#[derive(Debug, Drop)]
pub enum Pick {
    /// Each format with a stream, as a choice of its own.
    All,
    /// All formats with a stream, merged.
    MergeAll,
    /// The n-th best, or n-th worst, of the candidates.
    Ranked {
        worst: bool,
        media: Media,
        star: bool,
        /// From 1 on.
        n: u64,
    },
    /// The best with this extension.
    Ext(Text),
    /// The format with this id.
    Id(Text),
}
