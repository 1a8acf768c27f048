ghost use Rattle.std.specs.Prelude.{◌≡◌};

use crate::kind::Kind;
use crate::row::Row;
use text_base::NumField;

/// A field that formats are sorted by.
#[derive(Clone, Copy, Debug, PartialEq, Eq)]
pub enum SortKey {
    HasVideo,
    HasAudio,
    Preference,
    Language,
    Quality,
    Source,
    Protocol,
    VideoCodec,
    AudioCodec,
    VideoExt,
    AudioExt,
    DynamicRange,
    Filesize,
    FilesizeApprox,
    Size,
    Height,
    Width,
    Resolution,
    Fps,
    Tbr,
    Vbr,
    Abr,
    Asr,
    Channels,
    Bitrate,
    Id,
}

/// All fields.
const ALL: [SortKey; 26] = [
    SortKey::HasVideo,
    SortKey::HasAudio,
    SortKey::Preference,
    SortKey::Language,
    SortKey::Quality,
    SortKey::Source,
    SortKey::Protocol,
    SortKey::VideoCodec,
    SortKey::AudioCodec,
    SortKey::VideoExt,
    SortKey::AudioExt,
    SortKey::DynamicRange,
    SortKey::Filesize,
    SortKey::FilesizeApprox,
    SortKey::Size,
    SortKey::Height,
    SortKey::Width,
    SortKey::Resolution,
    SortKey::Fps,
    SortKey::Tbr,
    SortKey::Vbr,
    SortKey::Abr,
    SortKey::Asr,
    SortKey::Channels,
    SortKey::Bitrate,
    SortKey::Id,
];

impl SortKey {
    ghost use Rattle.fmt_sort.specs.Keys as spec;

    /// The name and the kind of a field.
    fn row(self) -> (&'static str, Kind)
        ensures name { result.0.now ≡ spec.name_of self }
        ensures kind { result.1 ≡ spec.kind_of self }
    {
        match self {
            SortKey::HasVideo => ("hasvid", Kind::VideoStream),
            SortKey::HasAudio => ("hasaud", Kind::AudioStream),
            SortKey::Preference => ("ie_pref", Kind::Preferred(NumField::Preference)),
            SortKey::Language => ("lang", Kind::Preferred(NumField::LanguagePreference)),
            SortKey::Quality => ("quality", Kind::Preferred(NumField::Quality)),
            SortKey::Source => ("source", Kind::Preferred(NumField::SourcePreference)),
            SortKey::Protocol => ("proto", Kind::Listed(Row::Protocols)),
            SortKey::VideoCodec => ("vcodec", Kind::Listed(Row::VideoCodecs)),
            SortKey::AudioCodec => ("acodec", Kind::Listed(Row::AudioCodecs)),
            SortKey::VideoExt => ("vext", Kind::Listed(Row::VideoExts)),
            SortKey::AudioExt => ("aext", Kind::Listed(Row::AudioExts)),
            SortKey::DynamicRange => ("hdr", Kind::Listed(Row::Ranges)),
            SortKey::Filesize => ("filesize", Kind::Measured(NumField::Filesize)),
            SortKey::FilesizeApprox => ("fs_approx", Kind::Measured(NumField::FilesizeApprox)),
            SortKey::Size => ("size", Kind::FileSize),
            SortKey::Height => ("height", Kind::Measured(NumField::Height)),
            SortKey::Width => ("width", Kind::Measured(NumField::Width)),
            SortKey::Resolution => ("res", Kind::Frame),
            SortKey::Fps => ("fps", Kind::Measured(NumField::Fps)),
            SortKey::Tbr => ("tbr", Kind::Measured(NumField::Tbr)),
            SortKey::Vbr => ("vbr", Kind::Measured(NumField::Vbr)),
            SortKey::Abr => ("abr", Kind::Measured(NumField::Abr)),
            SortKey::Asr => ("asr", Kind::Measured(NumField::Asr)),
            SortKey::Channels => ("channels", Kind::Measured(NumField::AudioChannels)),
            SortKey::Bitrate => ("br", Kind::Rate),
            SortKey::Id => ("id", Kind::FormatId),
        }
    }

    /// The name of the field.
    pub fn name(self) -> &'static str
        ensures { result.now ≡ spec.name_of self }
    {
        self.row().0
    }

    /// What kind of value it has, and of which keys.
    pub fn kind(self) -> Kind
        ensures { result ≡ spec.kind_of self }
    {
        self.row().1
    }

    /// The field of this name.
    pub(crate) fn named(name: &[u8]) -> Option<SortKey>
        ensures { result ≡ spec.key_named name.now }
    {
        ALL.iter()
            .copied()
            .find(|key| key.name().as_bytes() == name)
    }
}
