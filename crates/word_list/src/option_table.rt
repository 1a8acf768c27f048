//! Every option: its names, and what it is for.

ghost use Rattle.std.specs.Prelude.{◌≡◌, find};
ghost use Rattle.std.specs.Option.{option_copied};
ghost use Rattle.word_list.specs.OptionTable.{meaning_of, meaning_in};
ghost use Rattle.word_list.specs.OptionRows.{plain_rows, has_name};

use crate::choosing::{ChoosingFlag, ChoosingValue};
use crate::fetching::{FetchingFlag, FetchingValue};
use crate::meaning::{Flag, Meaning, Valued};
use crate::naming::{NamingFlag, NamingValue};
use crate::showing::{ShowingFlag, ShowingValue};
use crate::source::SourceValue;
use crate::tools::{ToolsFlag, ToolsValue};

/// An option: its names, long ones and those of one letter, and what it is for.
#[derive(Clone, Copy)]
pub struct OptionRow {
    pub names: &'static [&'static str],
    pub meaning: Meaning,
}

/// Every option.
const OPTIONS: [OptionRow; 44] = [
    OptionRow {
        names: &["--load-info-json"],
        meaning: Meaning::Value(Valued::Source(SourceValue::Info)),
    },
    OptionRow {
        names: &["--selftest"],
        meaning: Meaning::Value(Valued::Source(SourceValue::Selftest)),
    },
    OptionRow {
        names: &["-f", "--format"],
        meaning: Meaning::Value(Valued::Choosing(ChoosingValue::Format)),
    },
    OptionRow {
        names: &["-S", "--format-sort"],
        meaning: Meaning::Value(Valued::Choosing(ChoosingValue::Sort)),
    },
    OptionRow {
        names: &["--format-sort-force", "--S-force"],
        meaning: Meaning::Flag(Flag::Choosing(ChoosingFlag::Force(true))),
    },
    OptionRow {
        names: &["--no-format-sort-force"],
        meaning: Meaning::Flag(Flag::Choosing(ChoosingFlag::Force(false))),
    },
    OptionRow {
        names: &["--prefer-free-formats"],
        meaning: Meaning::Flag(Flag::Choosing(ChoosingFlag::Free(true))),
    },
    OptionRow {
        names: &["--no-prefer-free-formats"],
        meaning: Meaning::Flag(Flag::Choosing(ChoosingFlag::Free(false))),
    },
    OptionRow {
        names: &["--video-multistreams"],
        meaning: Meaning::Flag(Flag::Choosing(ChoosingFlag::VideoStreams(true))),
    },
    OptionRow {
        names: &["--no-video-multistreams"],
        meaning: Meaning::Flag(Flag::Choosing(ChoosingFlag::VideoStreams(false))),
    },
    OptionRow {
        names: &["--audio-multistreams"],
        meaning: Meaning::Flag(Flag::Choosing(ChoosingFlag::AudioStreams(true))),
    },
    OptionRow {
        names: &["--no-audio-multistreams"],
        meaning: Meaning::Flag(Flag::Choosing(ChoosingFlag::AudioStreams(false))),
    },
    OptionRow {
        names: &["--merge-output-format"],
        meaning: Meaning::Value(Valued::Choosing(ChoosingValue::Containers)),
    },
    OptionRow {
        names: &["-o", "--output"],
        meaning: Meaning::Value(Valued::Naming(NamingValue::Output)),
    },
    OptionRow {
        names: &["--output-na-placeholder"],
        meaning: Meaning::Value(Valued::Naming(NamingValue::Placeholder)),
    },
    OptionRow {
        names: &["--autonumber-start"],
        meaning: Meaning::Value(Valued::Naming(NamingValue::FirstNumber)),
    },
    OptionRow {
        names: &["--restrict-filenames"],
        meaning: Meaning::Flag(Flag::Naming(NamingFlag::Restricted(true))),
    },
    OptionRow {
        names: &["--no-restrict-filenames"],
        meaning: Meaning::Flag(Flag::Naming(NamingFlag::Restricted(false))),
    },
    OptionRow {
        names: &["--trim-filenames"],
        meaning: Meaning::Value(Valued::Naming(NamingValue::Trim)),
    },
    OptionRow {
        names: &["--print"],
        meaning: Meaning::Value(Valued::Showing(ShowingValue::Print)),
    },
    OptionRow {
        names: &["-s", "--simulate"],
        meaning: Meaning::Flag(Flag::Showing(ShowingFlag::Simulate(true))),
    },
    OptionRow {
        names: &["--no-simulate"],
        meaning: Meaning::Flag(Flag::Showing(ShowingFlag::Simulate(false))),
    },
    OptionRow {
        names: &["-q", "--quiet"],
        meaning: Meaning::Flag(Flag::Showing(ShowingFlag::Quiet(true))),
    },
    OptionRow {
        names: &["--no-quiet"],
        meaning: Meaning::Flag(Flag::Showing(ShowingFlag::Quiet(false))),
    },
    OptionRow {
        names: &["-N", "--concurrent-fragments"],
        meaning: Meaning::Value(Valued::Fetching(FetchingValue::Workers)),
    },
    OptionRow {
        names: &["-R", "--retries"],
        meaning: Meaning::Value(Valued::Fetching(FetchingValue::Retries)),
    },
    OptionRow {
        names: &["--fragment-retries"],
        meaning: Meaning::Value(Valued::Fetching(FetchingValue::FragmentRetries)),
    },
    OptionRow {
        names: &["-c", "--continue"],
        meaning: Meaning::Flag(Flag::Fetching(FetchingFlag::Resume(true))),
    },
    OptionRow {
        names: &["--no-continue"],
        meaning: Meaning::Flag(Flag::Fetching(FetchingFlag::Resume(false))),
    },
    OptionRow {
        names: &["-k", "--keep-video"],
        meaning: Meaning::Flag(Flag::Tools(ToolsFlag::Keep(true))),
    },
    OptionRow {
        names: &["--no-keep-video"],
        meaning: Meaning::Flag(Flag::Tools(ToolsFlag::Keep(false))),
    },
    OptionRow {
        names: &["--remux-video"],
        meaning: Meaning::Value(Valued::Tools(ToolsValue::Remux)),
    },
    OptionRow {
        names: &["-x", "--extract-audio"],
        meaning: Meaning::Flag(Flag::Tools(ToolsFlag::ExtractAudio)),
    },
    OptionRow {
        names: &["--audio-format"],
        meaning: Meaning::Value(Valued::Tools(ToolsValue::AudioFormat)),
    },
    OptionRow {
        names: &["--exec"],
        meaning: Meaning::Value(Valued::Tools(ToolsValue::Exec)),
    },
    OptionRow {
        names: &["--no-exec"],
        meaning: Meaning::Flag(Flag::Tools(ToolsFlag::NoExec)),
    },
    OptionRow {
        names: &["--ffmpeg-location"],
        meaning: Meaning::Value(Valued::Tools(ToolsValue::Program)),
    },
    OptionRow {
        names: &["--download-archive"],
        meaning: Meaning::Value(Valued::Fetching(FetchingValue::Archive)),
    },
    OptionRow {
        names: &["--no-download-archive"],
        meaning: Meaning::Flag(Flag::Fetching(FetchingFlag::NoArchive)),
    },
    OptionRow {
        names: &["--break-on-existing"],
        meaning: Meaning::Flag(Flag::Fetching(FetchingFlag::BreakOnExisting(true))),
    },
    OptionRow {
        names: &["--no-break-on-existing"],
        meaning: Meaning::Flag(Flag::Fetching(FetchingFlag::BreakOnExisting(false))),
    },
    OptionRow {
        names: &["--abort-on-error"],
        meaning: Meaning::Flag(Flag::Fetching(FetchingFlag::AbortOnError(true))),
    },
    OptionRow {
        names: &["--no-abort-on-error"],
        meaning: Meaning::Flag(Flag::Fetching(FetchingFlag::AbortOnError(false))),
    },
    OptionRow {
        names: &[
            "--abort-on-unavailable-fragments",
            "--no-skip-unavailable-fragments",
        ],
        meaning: Meaning::Flag(Flag::Fetching(FetchingFlag::AllFragments)),
    },
];

/// What the option with this name is for, where there is one.
pub fn meaning_of(name: &str) -> Option<Meaning>
    ensures { result ≡ meaning_of name.now }
{
    meaning_in(&OPTIONS, name)
}

fn meaning_in(rows: &[OptionRow], name: &str) -> Option<Meaning>
    ensures { result ≡ meaning_in (plain_rows rows.now) name.now }
{
    match row_of(rows, name) {
        Some(row) => Some(row.meaning),
        None => None,
    }
}

fn row_of<'a>(rows: &'a [OptionRow], name: &str) -> Option<&'a OptionRow>
    ensures { option_copied result ≡ find (has_name name.now) rows.now }
{
    rows.iter().find(|row| has_name(row, name))
}

fn has_name(row: &OptionRow, name: &str) -> bool
    ensures { result ≡ has_name name.now row.now }
{
    row.names.iter().any(|known| *known == name)
}
