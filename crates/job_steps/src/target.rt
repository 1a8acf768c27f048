//! Targets of extracted audio.
ghost use Rattle.std.specs.Prelude.{◌≡◌, find, map, false, option_map};
ghost use Rattle.fmt_sort.specs.Rows.{points_of};
ghost use Rattle.fmt_sort.specs.declared.row.Row.TheVariants.{AudioCodecs};
ghost use Rattle.info_item.specs.Fields.{has_audio_of};
ghost use Rattle.job_steps.specs.Steps as spec;

use crate::rule::ExtRule;
use fmt_sort::Row;
use info_item::Format;
use text_base::TextField;

/// What audio becomes.
#[derive(Clone, Copy, Debug, PartialEq, Eq)]
pub(crate) enum AudioTarget {
    Aac,
    Alac,
    Flac,
    M4a,
    Mp3,
    Opus,
    Vorbis,
    Wav,
}

impl AudioTarget {
    ghost use Rattle.std.specs.Prelude.{◌≡◌, map};
    ghost use Rattle.job_steps.specs.Steps as spec;

    /// The extension of its files.
    pub(crate) fn ext(self) -> &'static str
        ensures { result.now ≡ spec.target_ext self }
    {
        match self {
            AudioTarget::Aac => "aac",
            AudioTarget::Alac => "m4a",
            AudioTarget::Flac => "flac",
            AudioTarget::M4a => "m4a",
            AudioTarget::Mp3 => "mp3",
            AudioTarget::Opus => "opus",
            AudioTarget::Vorbis => "ogg",
            AudioTarget::Wav => "wav",
        }
    }

    fn encoder(self) -> &'static str
        ensures { result.now ≡ spec.encoder self }
    {
        match self {
            AudioTarget::Aac => "aac",
            AudioTarget::Alac => "alac",
            AudioTarget::Flac => "flac",
            AudioTarget::M4a => "aac",
            AudioTarget::Mp3 => "libmp3lame",
            AudioTarget::Opus => "libopus",
            AudioTarget::Vorbis => "libvorbis",
            AudioTarget::Wav => "pcm_s16le",
        }
    }

    /// Whether audio with these points is taken as it is.
    fn takes(self, points: u8) -> bool
        ensures { result ≡ spec.takes self points }
    {
        match self {
            AudioTarget::Aac | AudioTarget::M4a => is_aac(points),
            AudioTarget::Mp3 => points == codec_points("mp3"),
            AudioTarget::Opus => points == codec_points("opus"),
            AudioTarget::Vorbis => points == codec_points("vorbis"),
            AudioTarget::Alac | AudioTarget::Flac | AudioTarget::Wav => false,
        }
    }
}

/// The points of an audio codec in its row.
fn codec_points(codec: &str) -> u8
    ensures { result ≡ points_of AudioCodecs false codec.now }
{
    Row::AudioCodecs.points(false, codec)
}

/// Whether the points are those of AAC, under either of its names.
fn is_aac(points: u8) -> bool
    ensures { result ≡ spec.is_aac points }
{
    points == codec_points("aac") || points == codec_points("mp4a")
}

/// The first part with audio.
fn first_with_audio<'a, 'b>(parts: &[&'a Format<'b>]) -> Option<&'a Format<'b>>
    ensures { option_map (λ f. f.now) result ≡ find (λ f. has_audio_of f.tree) (map (λ f. f.now) parts.now) }
{
    for part in parts {
        if part.has_audio() {
            return Some(*part);
        }
    }
    None
}

/// The points of the audio codec of the first part with audio.
fn audio_points(parts: &[&Format<'_>]) -> u8
    ensures { result ≡ spec.audio_points (map (λ f. f.now) parts.now) }
{
    let Some(part) = first_with_audio(parts) else {
        return 1;
    };
    match part.text(TextField::Acodec) {
        Some(codec) => codec_points(codec),
        None => 1,
    }
}

/// The target that a word names.
fn target_named(word: &str) -> Option<AudioTarget>
    ensures { result ≡ spec.target_named word.now }
{
    match word {
        "aac" => Some(AudioTarget::Aac),
        "alac" => Some(AudioTarget::Alac),
        "flac" => Some(AudioTarget::Flac),
        "m4a" => Some(AudioTarget::M4a),
        "mp3" => Some(AudioTarget::Mp3),
        "opus" => Some(AudioTarget::Opus),
        "vorbis" => Some(AudioTarget::Vorbis),
        "wav" => Some(AudioTarget::Wav),
        _ => None,
    }
}

/// The target that keeps audio with these points as well as it can be.
fn best_target(points: u8) -> AudioTarget
    ensures { result ≡ spec.best_target points }
{
    if is_aac(points) {
        AudioTarget::M4a
    } else if points == codec_points("opus") {
        AudioTarget::Opus
    } else if points == codec_points("vorbis") {
        AudioTarget::Vorbis
    } else {
        AudioTarget::Mp3
    }
}

/// The target of a rule, which may be `best`.
fn target_of(points: u8, word: &str) -> Option<AudioTarget>
    ensures { result ≡ spec.target_of points word.now }
{
    if word == "best" {
        Some(best_target(points))
    } else {
        target_named(word)
    }
}

/// Whether a rule is for an extension.
fn is_rule_for(ext: &str, rule: &ExtRule) -> bool
    ensures { result ≡ spec.is_rule_for ext.now rule.now }
{
    match &rule.from {
        Some(from) => ext == from.as_str(),
        None => true,
    }
}

/// What the first rule for an extension makes of it.
pub(crate) fn ruled<'a>(rules: &'a [ExtRule], ext: &str) -> Option<&'a str>
    ensures { option_map (λ t. t.now) result ≡ spec.ruled rules.entry.now ext.now }
{
    let rule = rules.iter().find(|rule| is_rule_for(ext, rule))?;
    Some(rule.to.as_str())
}

/// The target that rules ask for; without a rule it is the best.
fn target_by(rules: &[ExtRule], points: u8, ext: &str) -> Option<AudioTarget>
    ensures { result ≡ spec.target_by rules.now points ext.now }
{
    if rules.is_empty() {
        return Some(best_target(points));
    }
    target_of(points, ruled(rules, ext)?)
}

/// The target that rules ask for, and how the audio of parts is coded for it.
pub(crate) fn coding(
    rules: &[ExtRule],
    parts: &[&Format<'_>],
    ext: &str,
) -> Option<(AudioTarget, &'static str)>
    ensures { option_map (λ c. (c.0, c.1.now)) result ≡ spec.coding rules.now (map (λ f. f.now) parts.now) ext.now }
{
    let points = audio_points(parts);
    let target = target_by(rules, points, ext)?;
    Some((target, coder(points, target)))
}

/// How audio with these points is coded for a target.
fn coder(points: u8, target: AudioTarget) -> &'static str
    ensures { result.now ≡ spec.coder points target }
{
    if target.takes(points) {
        "copy"
    } else {
        target.encoder()
    }
}
