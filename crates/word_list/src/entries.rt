//! Values of several entries, with a slash between them: containers, and rules for extensions.

ghost use Rattle.std.specs.Prelude.{◌≡◌};
ghost use Rattle.std.specs.List.{list_any};
ghost use Rattle.std.specs.Option.{option_copied};
ghost use Rattle.std.specs.Str.{bytes_eq};
ghost use Rattle.word_list.specs.Entries as spec;
ghost use Rattle.word_list.specs.Faults.{Gives};
ghost use Rattle.word_list.specs.OptionRows.{texts_in};

use crate::fault::{OptionFault, ValueFault};
use job_plan::ExtRule;
use std::alloc::Global;
use text_base::Text;

/// The containers that parts are merged into.
const CONTAINERS: [&str; 6] = ["mkv", "mp4", "mov", "webm", "avi", "flv"];

/// What videos become.
const REMUX_TARGETS: [&str; 14] = [
    "avi", "flv", "mkv", "mov", "mp4", "webm", "aac", "flac", "m4a", "mka", "mp3", "ogg", "opus",
    "wav",
];

/// What audio becomes; `best` is the same codec where it can be kept.
const AUDIO_TARGETS: [&str; 9] = [
    "best", "aac", "alac", "flac", "m4a", "mp3", "opus", "vorbis", "wav",
];

/// What one entry of a value may be, by the names that it may have.
trait Entry: Drop {
    ghost use Rattle.std.specs.Prelude.{◌≡◌, ℕ, List, Result};
    ghost use Rattle.word_list.specs.Faults.{Gives};
    ghost use Rattle.word_list.specs.OptionRows.{texts_in};
    ghost use Rattle.word_list.specs.declared.fault.OptionFault.{OptionFault as Fault};

    ghost entry: { List (List ℕ) → List ℕ → Result Self Fault };

    fn read(alloc: Global, names: &[&str], text: &str) -> Result<Self, ValueFault>
        ensures { Gives (λ x. x) result (entry (texts_in names.now) text.now) };
}

impl Entry for Text {
    ghost use Rattle.word_list.specs.Entries.{name_in};

    ghost entry = { name_in };

    fn read(alloc: Global, names: &[&str], text: &str) -> Result<Text, ValueFault> {
        name(alloc, names, text)
    }
}

impl Entry for ExtRule {
    ghost use Rattle.word_list.specs.Entries.{rule_in};

    ghost entry = { rule_in };

    fn read(alloc: Global, names: &[&str], text: &str) -> Result<ExtRule, ValueFault> {
        match text.split_once('>') {
            Some((from, to)) => rule(alloc, names, Some(from), to),
            None => rule(alloc, names, None, text),
        }
    }
}

/// One of these names.
fn name(alloc: Global, names: &[&str], text: &str) -> Result<Text, ValueFault>
    ensures { Gives (λ t. t) result (spec.name_in (texts_in names.now) text.now) }
{
    if !is_one_of(names, text) {
        return Err(ValueFault::Bad(OptionFault::BadValue));
    }
    Ok(Text::new(alloc, text)?)
}

/// A rule to one of these names.
fn rule(alloc: Global, names: &[&str], from: Option<&str>, to: &str) -> Result<ExtRule, ValueFault>
    ensures { Gives (λ r. r) result (spec.rule_to (texts_in names.now) (option_copied from.entry) to.now) }
{
    let to = name(alloc, names, to)?;
    match from {
        Some(from) => {
            let from = Some(Text::new(alloc, from)?);
            Ok(ExtRule { from, to })
        }
        None => Ok(ExtRule { from: None, to }),
    }
}

fn is_one_of(names: &[&str], text: &str) -> bool
    ensures { result ≡ spec.is_one_of (texts_in names.now) text.now }
{
    has_name(names, text)
}

fn has_name(names: &[&str], text: &str) -> bool
    ensures { result ≡ list_any (λ known. bytes_eq known.now text.now) names.now }
{
    names.iter().any(|name| *name == text)
}

/// All entries of a value.
fn all_of<T: Entry>(alloc: Global, names: &[&str], value: &str) -> Result<Vec<T>, ValueFault>
    ensures { Gives (λ all. all.items) result (spec.all_in (T.entry (texts_in names.now)) (spec.entries_of value.now)) }
{
    let mut all = Vec::new(alloc);
    let mut rest = value;
    'entries: while let Some((first, behind)) = rest.split_once('/') {
        let one = T::read(alloc, names, first)?;
        all.push(one)?;
        rest = behind;
    }
    let last = T::read(alloc, names, rest)?;
    all.push(last)?;
    Ok(all)
}

/// The containers that a value names.
#[tactic(auto, unfolding(crate::specs::Entries::containers_of))]
pub fn containers(alloc: Global, value: &str) -> Result<Vec<Text>, ValueFault>
    ensures { Gives (λ names. names.items) result (spec.containers_of value.now) }
{
    all_of(alloc, &CONTAINERS, value)
}

/// The rules by which videos become other files.
#[tactic(auto, unfolding(crate::specs::Entries::remux_rules_of))]
pub fn remux_rules(alloc: Global, value: &str) -> Result<Vec<ExtRule>, ValueFault>
    ensures { Gives (λ rules. rules.items) result (spec.remux_rules_of value.now) }
{
    all_of(alloc, &REMUX_TARGETS, value)
}

/// The rules by which audio becomes other files.
#[tactic(auto, unfolding(crate::specs::Entries::audio_rules_of))]
pub fn audio_rules(alloc: Global, value: &str) -> Result<Vec<ExtRule>, ValueFault>
    ensures { Gives (λ rules. rules.items) result (spec.audio_rules_of value.now) }
{
    all_of(alloc, &AUDIO_TARGETS, value)
}
