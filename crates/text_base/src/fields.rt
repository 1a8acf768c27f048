//! The keys of a format that are asked for by name.

ghost use Rattle.std.specs.Prelude.{◌≡◌};
ghost use Rattle.text_base.specs.Fields.{num_key, text_key};

/// A key of a format that stands for a number.
#[derive(Clone, Copy, Debug)]
pub enum NumField {
    Filesize,
    FilesizeApprox,
    Width,
    Height,
    AspectRatio,
    Tbr,
    Abr,
    Vbr,
    Asr,
    Fps,
    AudioChannels,
    StretchedRatio,
    Preference,
    LanguagePreference,
    Quality,
    SourcePreference,
}

impl NumField {
    /// The key in an information file.
    pub fn key(self) -> &'static str
        ensures { result.now ≡ num_key self }
    {
        match self {
            NumField::Filesize => "filesize",
            NumField::FilesizeApprox => "filesize_approx",
            NumField::Width => "width",
            NumField::Height => "height",
            NumField::AspectRatio => "aspect_ratio",
            NumField::Tbr => "tbr",
            NumField::Abr => "abr",
            NumField::Vbr => "vbr",
            NumField::Asr => "asr",
            NumField::Fps => "fps",
            NumField::AudioChannels => "audio_channels",
            NumField::StretchedRatio => "stretched_ratio",
            NumField::Preference => "preference",
            NumField::LanguagePreference => "language_preference",
            NumField::Quality => "quality",
            NumField::SourcePreference => "source_preference",
        }
    }
}

/// A key of a format that stands for a text.
#[derive(Clone, Copy, Debug)]
pub enum TextField {
    Url,
    Ext,
    Acodec,
    Vcodec,
    Container,
    Protocol,
    Language,
    DynamicRange,
    FormatId,
    Format,
    FormatNote,
    Resolution,
}

impl TextField {
    /// The key in an information file.
    pub fn key(self) -> &'static str
        ensures { result.now ≡ text_key self }
    {
        match self {
            TextField::Url => "url",
            TextField::Ext => "ext",
            TextField::Acodec => "acodec",
            TextField::Vcodec => "vcodec",
            TextField::Container => "container",
            TextField::Protocol => "protocol",
            TextField::Language => "language",
            TextField::DynamicRange => "dynamic_range",
            TextField::FormatId => "format_id",
            TextField::Format => "format",
            TextField::FormatNote => "format_note",
            TextField::Resolution => "resolution",
        }
    }
}
