use fmt_sort::{SortFault, SortKey};
use sel_lang::{Media, Pick, Sel, SelFault};
use std::alloc::Global;
use std::process::Abort;
use std::test::Fail;
use text_base::{OutOfMemory, Text};
use tpl_lang::{Part, Template, TplFault};
use word_list::{OptionFault, Options, WordsFault, read_words};

const INFO: &str = "--load-info-json";

pub fn texts(alloc: Global, words: &[&str]) -> Result<Vec<Text>, OutOfMemory> {
    let mut texts = Vec::new(alloc);
    for word in words {
        texts.push(Text::new(alloc, word)?)?;
    }
    Ok(texts)
}

/// Words that are refused, the place of the one at fault, and its fault.
type Refused = (&'static [&'static str], usize, OptionFault);

/// Words whose form is at fault.
const FORMS: [Refused; 22] = [
    (&[], 0, OptionFault::NoInfo),
    (&[INFO], 0, OptionFault::NeedsValue),
    (&["-s", "-f"], 1, OptionFault::NeedsValue),
    (&["--exec"], 0, OptionFault::NeedsValue),
    (&["--simulat"], 0, OptionFault::Unknown),
    (&["--simulates"], 0, OptionFault::Unknown),
    (&["-s", "-Z"], 1, OptionFault::Unknown),
    (&["-é"], 0, OptionFault::Unknown),
    (&["-sq"], 0, OptionFault::Unknown),
    (&["-xyz"], 0, OptionFault::Unknown),
    (&["-s=1"], 0, OptionFault::Unknown),
    (&["--=x"], 0, OptionFault::Unknown),
    (&["--skip-unavailable-fragments"], 0, OptionFault::Unknown),
    (&["--simulate=yes"], 0, OptionFault::TakesNone),
    (&["--no-quiet="], 0, OptionFault::TakesNone),
    (&["--restrict-filenames=1"], 0, OptionFault::TakesNone),
    (&["-"], 0, OptionFault::Extra),
    (&[""], 0, OptionFault::Extra),
    (&["a", "--bad"], 0, OptionFault::Extra),
    (&["--", "-s"], 1, OptionFault::Extra),
    (&["--"], 1, OptionFault::NoInfo),
    (&["-s"], 1, OptionFault::NoInfo),
];

/// Values that are empty, out of their bounds, or not named.
const VALUES: [Refused; 24] = [
    (&["-s", INFO, ""], 1, OptionFault::BadValue),
    (&["--load-info-json="], 0, OptionFault::BadValue),
    (&["-f22x", INFO, ""], 1, OptionFault::BadValue),
    (&[INFO, "i", "-f", ""], 2, OptionFault::BadValue),
    (&["-S", "", "-Z"], 0, OptionFault::BadValue),
    (&["--selftest", "0"], 0, OptionFault::BadValue),
    (&["--selftest=10001"], 0, OptionFault::BadValue),
    (&["--selftest", "007"], 0, OptionFault::BadValue),
    (&["-N0"], 0, OptionFault::BadValue),
    (&["-N", "33"], 0, OptionFault::BadValue),
    (&["-R", "1001"], 0, OptionFault::BadValue),
    (&["-R", "+1"], 0, OptionFault::BadValue),
    (&["--fragment-retries", ""], 0, OptionFault::BadValue),
    (&["--trim-filenames", "4097"], 0, OptionFault::BadValue),
    (
        &["--autonumber-start", "1000000000000001"],
        0,
        OptionFault::BadValue,
    ),
    (
        &["--autonumber-start", "18446744073709551617"],
        0,
        OptionFault::BadValue,
    ),
    (
        &["--merge-output-format", "mkv/m4a"],
        0,
        OptionFault::BadValue,
    ),
    (&["--remux-video", "mp4/best"], 0, OptionFault::BadValue),
    (&["--remux-video", "a>b>mkv"], 0, OptionFault::BadValue),
    (&["--audio-format", "mkv"], 0, OptionFault::BadValue),
    (&["--audio-format", "aac/"], 0, OptionFault::BadValue),
    (&["--exec", ""], 0, OptionFault::BadValue),
    (&["--ffmpeg-location", ""], 0, OptionFault::BadValue),
    (&["--download-archive", "a/../b"], 0, OptionFault::BadValue),
];

/// Selectors, templates and sort words that their readers refuse.
const LANGUAGES: [Refused; 8] = [
    (
        &["-f", "a,,b"],
        0,
        OptionFault::Selector(SelFault::Syntax { at: 2 }),
    ),
    (
        &["--selftest", "1", "-f", "b[quality>1]"],
        2,
        OptionFault::Selector(SelFault::Field { at: 2 }),
    ),
    (
        &["-o", "%(id)L"],
        0,
        OptionFault::Template(TplFault::TypeLetter { at: 5 }),
    ),
    (
        &["--print", "%(id"],
        0,
        OptionFault::Template(TplFault::Syntax { at: 4 }),
    ),
    (
        &["-s", "--exec", "%(id>%Q)s"],
        1,
        OptionFault::Template(TplFault::Directive { at: 5 }),
    ),
    (
        &["-Sfoo"],
        0,
        OptionFault::Sort(SortFault::Field { piece: 0 }),
    ),
    (
        &[INFO, "i", "-S", "res,fps", "-S", "br,foo", "--bad"],
        4,
        OptionFault::Sort(SortFault::Field { piece: 3 }),
    ),
    (
        &["--format-sort=res:720", "--format-sort", "res:x", "-Z"],
        1,
        OptionFault::Sort(SortFault::Limit { piece: 1 }),
    ),
];

/// The words of each row are refused.
fn are_refused(rt: &(impl Abort + AllocGlobal), rows: &[Refused]) -> Result<(), Fail> {
    for (words, word, fault) in rows {
        let texts = texts(rt.alloc(), words)?;
        let wanted = WordsFault::Bad {
            word: *word,
            fault: *fault,
        };
        assert_eq!(rt;
            read_words(rt.alloc(), &texts).err(),
            Some(wanted),
            "{words:?}"
        );
    }
    Ok(())
}

#[test]
fn words_are_refused(rt: HostRuntime) -> Result<(), Fail> {
    are_refused(&rt, &FORMS)?;
    are_refused(&rt, &VALUES)?;
    are_refused(&rt, &LANGUAGES)
}

/// The options of words, which are accepted.
fn asked(alloc: Global, words: &[&str]) -> Result<Options, Fail> {
    Ok(read_words(alloc, &texts(alloc, words)?)?)
}

/// Every option that tests/cli does not show, at the edge of what it takes.
const ACCEPTED: [&[&str]; 3] = [
    &["--selftest=10000", "--print", "", "-o", ""],
    &[
        INFO,
        "i",
        "--autonumber-start",
        "1000000000000000",
        "--trim-filenames",
        "4096",
        "--extract-audio",
        "--keep-video",
        "--continue",
        "--remux-video",
        ">mp4/aac>m4a/wav",
        "--audio-format",
        "best/aac/alac",
    ],
    &[
        INFO,
        "i",
        "--exec",
        "%%",
        "--download-archive",
        "a/b",
        "--output",
        "%(id)s",
        "--retries",
        "0",
        "--concurrent-fragments=1",
    ],
];

#[test]
fn options_take_their_values(rt: HostRuntime) -> Result<(), Fail> {
    for words in &ACCEPTED {
        asked(rt.alloc(), words)?;
    }
    Ok(())
}

/// Words, the file that they name, how many prints they ask for, whether the run is simulated, and whether it is quiet.
const SHOWN: [(&[&str], &str, usize, bool, bool); 8] = [
    (&["--load-info-json=a=b", "-s"], "a=b", 0, true, false),
    (&[INFO, "--print", "-s"], "--print", 0, true, false),
    (&[INFO, "--", "-s", "--"], "--", 0, true, false),
    (&[INFO, "a", INFO, "b", "-q"], "b", 0, false, true),
    (
        &["--print=id", "--print=", INFO, "i", "--no-quiet"],
        "i",
        2,
        true,
        false,
    ),
    (&[INFO, "i", "-s", "--no-quiet", "-q"], "i", 0, true, true),
    (
        &["--print", "id", INFO, "i", "-s", "--no-simulate"],
        "i",
        1,
        false,
        true,
    ),
    (
        &[INFO, "i", "--no-simulate", "-s", "-q", "--no-quiet"],
        "i",
        0,
        true,
        false,
    ),
];

#[test]
fn of_repeated_words_the_last_stands(rt: HostRuntime) -> Result<(), Fail> {
    for (words, file, prints, simulate, quiet) in &SHOWN {
        let options = asked(rt.alloc(), words)?;
        let info = options.info.as_ref().map(|name| name.as_str());
        assert_eq!(rt; info, Some(*file), "{words:?}");
        assert_eq!(rt; options.plan.prints.len(), *prints, "{words:?}");
        assert_eq!(rt;
            (options.simulate, options.quiet),
            (*simulate, *quiet),
            "{words:?}"
        );
    }
    Ok(())
}

#[test]
fn the_self_test_has_options_of_its_own(rt: HostRuntime) -> Result<(), Fail> {
    let words = [INFO, "i", "--selftest", "7", "-N", "9", "-s", "-R1"];
    let options = asked(rt.alloc(), &words)?;
    assert_eq!(rt; options.selftest, Some(7));
    assert!(rt; options.info.is_none());
    assert_eq!(rt; (options.simulate, options.quiet), (false, true));
    assert_eq!(rt; (options.workers, options.retries), (4, 10));
    Ok(())
}

/// Whether a selector begins with audio alone.
fn wants_audio(sel: &Sel) -> bool {
    match sel {
        Sel::First(choices) => matches!(
            choices.first(),
            Some(Sel::Name(Pick::Ranked {
                media: Media::Audio,
                ..
            }))
        ),
        _ => false,
    }
}

/// Words, whether audio alone is chosen, and how many commands stand at their end.
const MADE: [(&[&str], bool, usize); 3] = [
    (&[INFO, "i", "-x", "--exec", "a", "--exec", "b"], true, 2),
    (&[INFO, "i", "-x", "-k"], false, 0),
    (
        &[INFO, "i", "--exec", "a", "--no-exec", "--exec", "b"],
        false,
        1,
    ),
];

#[test]
fn audio_alone_is_chosen_where_nothing_else_is_kept(rt: HostRuntime) -> Result<(), Fail> {
    for (words, audio, commands) in &MADE {
        let plan = asked(rt.alloc(), words)?.plan;
        assert_eq!(rt; wants_audio(&plan.sel), *audio, "{words:?}");
        assert_eq!(rt; plan.exec.len(), *commands, "{words:?}");
    }
    Ok(())
}

/// Whether the first of commands ends with a field.
fn ends_with_a_field(commands: &[Template]) -> bool {
    match commands.first() {
        Some(command) => matches!(command.parts().last(), Some(Part::Field(_))),
        None => false,
    }
}

/// Words, and whether their command ends with a field: one without a field gets that of the file's path.
const COMMANDS: [(&[&str], bool); 3] = [
    (&[INFO, "i", "--exec", "echo"], true),
    (&[INFO, "i", "--exec", "%%"], true),
    (&[INFO, "i", "--exec", "%(id)s ls"], false),
];

#[test]
fn a_command_without_a_field_gets_the_path(rt: HostRuntime) -> Result<(), Fail> {
    for (words, ends) in &COMMANDS {
        let plan = asked(rt.alloc(), words)?.plan;
        assert_eq!(rt; ends_with_a_field(&plan.exec), *ends, "{words:?}");
    }
    Ok(())
}

/// Words, whether free formats go first, and a place of their order with its field.
const ORDERS: [(&[&str], bool, usize, SortKey); 4] = [
    (
        &[INFO, "i", "-S", "res:720,fps", "-S", "br"],
        false,
        2,
        SortKey::Bitrate,
    ),
    (
        &[INFO, "i", "-S", "res:720,fps", "-S", "br"],
        false,
        3,
        SortKey::Resolution,
    ),
    (
        &[INFO, "i", "-Sbr", "--S-force", "--prefer-free-formats"],
        true,
        0,
        SortKey::Bitrate,
    ),
    (
        &[
            INFO,
            "i",
            "-Sbr",
            "--S-force",
            "--no-format-sort-force",
            "--prefer-free-formats",
            "--no-prefer-free-formats",
        ],
        false,
        0,
        SortKey::HasVideo,
    ),
];

#[test]
fn sort_words_set_an_order(rt: HostRuntime) -> Result<(), Fail> {
    for (words, free, place, field) in &ORDERS {
        let options = asked(rt.alloc(), words)?;
        let sort = &options.plan.sort;
        assert_eq!(rt; sort.free, *free, "{words:?}");
        let key = sort.fields.get(*place).map(|field| field.key);
        assert_eq!(rt; key, Some(*field), "{words:?}");
    }
    Ok(())
}
