ghost use Rattle.std.specs.Prelude.{◌≡◌, ◌∷◌, [], bytes_eq, length, map, filter, find, reverse};
ghost use Rattle.std.specs.Option.{option_copied};
ghost use Rattle.sel_eval.specs.Answer.{Answers};
ghost use Rattle.sel_eval.specs.Den.{is_over};
ghost use Rattle.sel_eval.specs.Keep.{keep};
ghost use Rattle.sel_eval.specs.Placed.{has_stream};
ghost use Rattle.sel_eval.specs.Picks.{is_candidate, nth, has_ext, alone, at_most_one, is_choice, ranked, picks};

use crate::choice::Choice;
use crate::choose_fault::ChooseFault;
use crate::ext::is_among;
use crate::placed::Placed;
use crate::policy::Policy;
use crate::streams::Streams;
use sel_lang::{Media, Pick};
use std::alloc::Global;

/// The most choices that a part of a selector may have.
pub(crate) const MOST: usize = 10_000;

/// Which formats the names `best` and `worst` and their kin look at.
#[derive(Clone, Copy)]
struct Candidates {
    both: bool,
    media: Media,
    star: bool,
}

impl Candidates {
    fn has(self, placed: &Placed<'_>) -> bool
        ensures { result ≡ is_candidate self.both self.media self.star placed.now }
    {
        let (video, audio) = (placed.has_video(), placed.has_audio());
        match (self.media, self.star) {
            (Media::Any, false) if self.both => video && audio,
            (Media::Any, _) => video || audio,
            (Media::Video, true) => video,
            (Media::Video, false) => video && !audio,
            (Media::Audio, true) => audio,
            (Media::Audio, false) => audio && !video,
        }
    }
}

/// The n-th of the candidates from the best on.
fn nth_best<'b, 'a>(
    candidates: Candidates,
    n: u64,
    formats: &'b [Placed<'a>],
) -> Option<&'b Placed<'a>>
    ensures { option_copied result ≡ nth n
        (filter (is_candidate candidates.both candidates.media candidates.star) formats.entry.now) }
{
    if n == 0 {
        return None;
    }
    formats
        .iter()
        .filter(|p| candidates.has(p))
        .nth((n - 1) as usize)
}

/// The n-th of the candidates from the worst on.
fn nth_worst<'b, 'a>(
    candidates: Candidates,
    n: u64,
    formats: &'b [Placed<'a>],
) -> Option<&'b Placed<'a>>
    ensures { option_copied result ≡ nth n
        (filter (is_candidate candidates.both candidates.media candidates.star) (reverse formats.entry.now)) }
{
    if n == 0 {
        return None;
    }
    formats
        .iter()
        .rev()
        .filter(|p| candidates.has(p))
        .nth((n - 1) as usize)
}

/// Whether an extension names a format: one with both streams, or for an extension of audio one with audio.
fn has_ext(ext: &str, placed: &Placed<'_>) -> bool
    ensures { result ≡ has_ext ext.now placed.now }
{
    ext == placed.format().ext()
        && placed.has_audio()
        && (placed.has_video() || !is_among(ext, &["3gp", "flv", "mp4", "webm"]))
}

/// The best format with an extension.
fn best_with_ext<'b, 'a>(ext: &str, formats: &'b [Placed<'a>]) -> Option<&'b Placed<'a>>
    ensures { option_copied result ≡ find (has_ext ext.now) formats.entry.now }
{
    formats.iter().find(|p| has_ext(ext, p))
}

/// The format with an id.
fn with_id<'b, 'a>(id: &str, formats: &'b [Placed<'a>]) -> Option<&'b Placed<'a>>
    ensures { option_copied result ≡ find (λ p. bytes_eq id.now p.format.id) formats.entry.now }
{
    formats.iter().find(|p| id == p.format().id())
}

/// The choice of one format, where there is one.
fn at_most_one<'a>(alloc: Global, only: Option<&Placed<'a>>) -> Result<Vec<Choice<'a>>, ChooseFault>
    ensures { Answers result (at_most_one (option_copied only.entry))
        (is_over (length (at_most_one (option_copied only.entry)))) }
{
    let mut choices = Vec::new(alloc);
    if let Some(only) = only {
        choices.push(Choice::of(alloc, only)?)?;
    }
    Ok(choices)
}

/// The n-th of the candidates, as a choice.
fn ranked<'a>(
    alloc: Global,
    candidates: Candidates,
    worst: bool,
    n: u64,
    formats: &[Placed<'a>],
) -> Result<Vec<Choice<'a>>, ChooseFault>
    ensures { Answers result
        (at_most_one (ranked candidates.both candidates.media candidates.star worst n formats.entry.now))
        (is_over (length (at_most_one
        (ranked candidates.both candidates.media candidates.star worst n formats.entry.now)))) }
{
    if worst {
        at_most_one(alloc, nth_worst(candidates, n, formats))
    } else {
        at_most_one(alloc, nth_best(candidates, n, formats))
    }
}

/// Each format that has a stream, as a choice of its own.
fn all<'a>(alloc: Global, formats: &[Placed<'a>]) -> Result<Vec<Choice<'a>>, ChooseFault>
    ensures { Answers result
        (map alone (filter has_stream formats.entry.now))
        (is_over (length (map alone (filter has_stream formats.entry.now)))) }
{
    let mut choices = Vec::new(alloc);
    for placed in formats {
        if placed.has_stream() {
            if choices.len() == MOST {
                return Err(ChooseFault::TooMany);
            }
            choices.push(Choice::of(alloc, placed)?)?;
        }
    }
    Ok(choices)
}

/// All formats that have a stream, merged.
fn merge_all<'a>(
    alloc: Global,
    streams: &Streams,
    formats: &[Placed<'a>],
) -> Result<Vec<Choice<'a>>, ChooseFault>
    ensures { Answers result
        (filter is_choice (keep streams.now formats.entry.now ∷ []))
        (is_over (length (filter is_choice (keep streams.now formats.entry.now ∷ [])))) }
{
    let mut choices = Vec::new(alloc);
    let mut choice = Choice::new(alloc);
    choice.merge(streams, formats)?;
    if choice.has_parts() {
        choices.push(choice)?;
    }
    Ok(choices)
}

/// The choices that a name gives.
pub(crate) fn picked<'a>(
    alloc: Global,
    policy: &Policy<'_>,
    pick: &Pick,
    formats: &[Placed<'a>],
) -> Result<Vec<Choice<'a>>, ChooseFault>
    ensures { Answers result
        (picks policy.now.streams.now policy.now.both pick.now formats.entry.now)
        (is_over (length (picks policy.now.streams.now policy.now.both pick.now formats.entry.now))) }
{
    match pick {
        Pick::All => all(alloc, formats),
        Pick::MergeAll => merge_all(alloc, policy.streams, formats),
        Pick::Ranked {
            worst,
            media,
            star,
            n,
        } => {
            let candidates = Candidates {
                both: policy.both,
                media: *media,
                star: *star,
            };
            ranked(alloc, candidates, *worst, *n, formats)
        }
        Pick::Ext(ext) => at_most_one(alloc, best_with_ext(ext.as_str(), formats)),
        Pick::Id(id) => at_most_one(alloc, with_id(id.as_str(), formats)),
    }
}
