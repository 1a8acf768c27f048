use crate::row::Row;
use text_base::NumField;

/// What kind of value a field has, and of which keys.
#[derive(Clone, Copy, Debug)]
pub enum Kind {
    /// 1 with a video stream, else 0.
    VideoStream,
    /// 1 with an audio stream, else 0.
    AudioStream,
    /// A number, which is -1 where it is unknown.
    Preferred(NumField),
    /// A number.
    Measured(NumField),
    /// The size, else the approximate size.
    FileSize,
    /// The smaller of height and width.
    Frame,
    /// The bit rate of all, else of video, else of audio.
    Rate,
    /// The points of a text in a row.
    Listed(Row),
    /// The id, as a text.
    FormatId,
}
