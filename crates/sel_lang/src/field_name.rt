ghost use Rattle.std.specs.Prelude.{◌≡◌};
ghost use Rattle.sel_lang.specs.Filters.{num_named, text_named, field_named};

use text_base::{NumField, TextField};

/// A field that a filter may name.
#[derive(Clone, Copy, Debug)]
pub(crate) enum FieldName {
    Num(NumField),
    Text(TextField),
}

/// The fields of numbers that a filter may name.
const NUM_FIELDS: [NumField; 12] = [
    NumField::Filesize,
    NumField::FilesizeApprox,
    NumField::Width,
    NumField::Height,
    NumField::AspectRatio,
    NumField::Tbr,
    NumField::Abr,
    NumField::Vbr,
    NumField::Asr,
    NumField::Fps,
    NumField::AudioChannels,
    NumField::StretchedRatio,
];

/// The fields of texts.
const TEXT_FIELDS: [TextField; 12] = [
    TextField::Url,
    TextField::Ext,
    TextField::Acodec,
    TextField::Vcodec,
    TextField::Container,
    TextField::Protocol,
    TextField::Language,
    TextField::DynamicRange,
    TextField::FormatId,
    TextField::Format,
    TextField::FormatNote,
    TextField::Resolution,
];

fn num_named(word: &str) -> Option<NumField>
    ensures { result ≡ num_named word.now }
{
    NUM_FIELDS.iter().copied().find(|field| field.key() == word)
}

fn text_named(word: &str) -> Option<TextField>
    ensures { result ≡ text_named word.now }
{
    TEXT_FIELDS
        .iter()
        .copied()
        .find(|field| field.key() == word)
}

impl FieldName {
    ghost use Rattle.sel_lang.specs.Filters.{field_named};

    /// The field of this name.
    #[tactic(auto, unfolding(crate::specs::Filters::field_named))]
    pub(crate) fn named(word: &str) -> Option<FieldName>
        ensures { result ≡ field_named word.now }
    {
        match num_named(word) {
            Some(field) => Some(FieldName::Num(field)),
            None => match text_named(word) {
                Some(field) => Some(FieldName::Text(field)),
                None => None,
            },
        }
    }
}
