//! Texts that are ranked by their place in a row.

ghost use Rattle.std.specs.Prelude.{◌≡◌, map, List};
ghost use Rattle.fmt_sort.specs.Rows as spec;

/// A row of texts, from the best on.
#[derive(Clone, Copy, Debug)]
pub enum Row {
    Protocols,
    VideoCodecs,
    AudioCodecs,
    VideoExts,
    AudioExts,
    Ranges,
}

static PROTOCOLS: [(&str, u8); 12] = [
    ("https", 7),
    ("ftps", 7),
    ("http", 6),
    ("ftp", 6),
    ("m3u8_native", 5),
    ("m3u8", 5),
    ("http_dash_segments", 4),
    ("websocket_frag", 3),
    ("mms", 2),
    ("rtsp", 2),
    ("f4f", 1),
    ("f4m", 1),
];

static VIDEO_CODECS: [(&str, u8); 20] = [
    ("av01", 9),
    ("av1", 9),
    ("vp9.2", 8),
    ("vp09.02", 8),
    ("vp9", 7),
    ("vp09", 7),
    ("h265", 6),
    ("hevc", 6),
    ("hev1", 6),
    ("hvc1", 6),
    ("x265", 6),
    ("h264", 5),
    ("avc", 5),
    ("x264", 5),
    ("vp8", 4),
    ("vp08", 4),
    ("h263", 3),
    ("mp4v", 3),
    ("theora", 2),
    ("other", 1),
];

static AUDIO_CODECS: [(&str, u8); 19] = [
    ("flac", 12),
    ("alac", 12),
    ("wav", 11),
    ("aiff", 11),
    ("opus", 10),
    ("vorbis", 9),
    ("ogg", 9),
    ("aac", 8),
    ("mp4a", 7),
    ("m4a", 7),
    ("mp3", 6),
    ("ac4", 5),
    ("ac-4", 5),
    ("eac3", 4),
    ("ec-3", 4),
    ("ac3", 3),
    ("ac-3", 3),
    ("dts", 2),
    ("other", 1),
];

static VIDEO_EXTS: [(&str, u8); 5] = [
    ("mp4", 5),
    ("mov", 4),
    ("webm", 3),
    ("flv", 2),
    ("other", 1),
];

static FREE_VIDEO_EXTS: [(&str, u8); 5] = [
    ("webm", 5),
    ("mp4", 4),
    ("mov", 3),
    ("flv", 2),
    ("other", 1),
];

static AUDIO_EXTS: [(&str, u8); 7] = [
    ("m4a", 7),
    ("aac", 6),
    ("mp3", 5),
    ("ogg", 4),
    ("opus", 3),
    ("webm", 2),
    ("other", 1),
];

static FREE_AUDIO_EXTS: [(&str, u8); 7] = [
    ("ogg", 7),
    ("opus", 6),
    ("webm", 5),
    ("mp3", 4),
    ("m4a", 3),
    ("aac", 2),
    ("other", 1),
];

static RANGES: [(&str, u8); 9] = [
    ("dv", 6),
    ("hdr12", 5),
    ("12", 5),
    ("hdr10+", 4),
    ("10+", 4),
    ("hdr10", 3),
    ("10", 3),
    ("hlg", 2),
    ("sdr", 1),
];

/// Whether a text begins with a name that is in ASCII lower case, in any case.
fn begins(text: &[u8], name: &[u8]) -> bool
    ensures { result ≡ spec.begins text.now name.now }
{
    let mut rest = text;
    for letter in name {
        match rest {
            [first, others @ ..] if first.to_ascii_lowercase() == *letter => rest = others,
            _ => return false,
        }
    }
    true
}

/// Whether a text is a name that is in ASCII lower case, in any case.
pub(crate) fn is_named(text: &[u8], name: &[u8]) -> bool
    ensures { result ≡ spec.is_named text.now name.now }
{
    text.len() == name.len() && begins(text, name)
}

/// Whether a text fits a name, as a whole or by its beginning.
fn fits(is_whole: bool, text: &[u8], name: &[u8]) -> bool
    ensures { result ≡ spec.fits is_whole text.now name.now }
{
    if is_whole {
        is_named(text, name)
    } else {
        begins(text, name)
    }
}

impl Row {
    ghost use Rattle.std.specs.Prelude.{◌≡◌, map};
    ghost use Rattle.fmt_sort.specs.Rows as spec;

    /// The texts of the row with their points.
    fn entries(self, free: bool) -> &'static [(&'static str, u8)]
        ensures { map (λ e. (e.0.now, e.1)) result.now ≡ spec.with_points (spec.places self free) }
    {
        match self {
            Row::Protocols => &PROTOCOLS,
            Row::VideoCodecs => &VIDEO_CODECS,
            Row::AudioCodecs => &AUDIO_CODECS,
            Row::VideoExts if free => &FREE_VIDEO_EXTS,
            Row::VideoExts => &VIDEO_EXTS,
            Row::AudioExts if free => &FREE_AUDIO_EXTS,
            Row::AudioExts => &AUDIO_EXTS,
            Row::Ranges => &RANGES,
        }
    }

    /// The points of the first name that a text fits, else those of the last place.
    fn first_points(self, free: bool, text: &[u8], is_whole: bool) -> u8
        ensures { result ≡ spec.first_points (spec.fits is_whole text.now)
            (spec.with_points (spec.places self free)) }
    {
        for (name, points) in self.entries(free) {
            if fits(is_whole, text, name.as_bytes()) {
                return *points;
            }
        }
        1
    }

    /// Whether a format's text fits a name only as a whole; codecs fit by their beginning.
    fn is_whole(self) -> bool
        ensures { result ≡ spec.is_whole self }
    {
        !matches!(self, Row::VideoCodecs | Row::AudioCodecs)
    }

    /// The points of a format's text: the place of the first name that it fits, counted from the
    /// row's end, the last being 1. Codecs fit by their beginning. `free` prefers free formats.
    pub fn points(self, free: bool, text: &str) -> u8
        ensures { result ≡ spec.points_of self free text.now }
    {
        self.first_points(free, text.as_bytes(), self.is_whole())
    }

    /// The points that a limit names.
    pub(crate) fn limit_points(self, free: bool, text: &[u8]) -> u8
        ensures { result ≡ spec.limit_points self free text.now }
    {
        self.first_points(free, text, true)
    }
}
