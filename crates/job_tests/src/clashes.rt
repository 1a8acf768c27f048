use crate::asked::{Asked, PLAIN, Row, Told, are_told};
use crate::infos::VIDEO;
use std::test::Fail;

/// A name that is the title.
const TITLED: Asked<'static> = Asked {
    template: "%(title)s",
    ..PLAIN
};

/// The same in ASCII.
const RESTRICTED: Asked<'static> = Asked {
    restricted: true,
    ..TITLED
};

/// A video with a second combined format.
const TWO_COMBINED: &str = r#"{"id": "x", "title": "t", "formats": [
    {"format_id": "22", "ext": "mp4", "url": "http://h/22"}, {"format_id": "18", "ext": "mp4", "url": "http://h/18"}]}"#;

/// Items of which the later ones have names of the first one's family.
const BESIDE: &str =
    r#"[{"id": "0", "title": "a", "url": "u"}, {"id": "1", "title": "a.part-Frag7", "url": "u"},
    {"id": "2", "title": "a.part", "url": "u"}, {"id": "3", "title": "a.par", "url": "u"}]"#;

/// Items of which the last one's family has the names of both others.
const AROUND: &str =
    r#"[{"id": "0", "title": "a.part-Frag", "url": "u"}, {"id": "1", "title": "a.ytdl", "url": "u"},
    {"id": "2", "title": "a", "url": "u"}]"#;

/// A format that is named as a piece of the other.
const AS_A_PIECE: &str = r#"{"id": "x", "title": "t", "formats": [
    {"format_id": "x", "ext": "mp4", "acodec": "none", "url": "u"},
    {"format_id": "x.mp4.part-Frag", "ext": "mp4", "vcodec": "none", "url": "u"}]}"#;

/// Formats whose names are one where they are cleaned.
const ALIKE: &str = r#"{"id": "x", "title": "t", "formats": [
    {"format_id": "a?", "ext": "mp4", "acodec": "none", "url": "u"},
    {"format_id": "a\"", "ext": "mp4", "vcodec": "none", "url": "u"}]}"#;

const NAMED_A: &str = r#"{"id": "x", "title": "a", "url": "u"}"#;

const NAMED_A_NEW: &str = r#"{"id": "x", "title": "a.new", "url": "u"}"#;

/// Items of which the first has no audio alone, and the third can't be fetched.
const NUMBERED: &str =
    r#"[{"id": "0", "url": "u"}, {"id": "1", "vcodec": "none", "url": "u"}, {"id": "2", "formats": [{"format_id": "f", "vcodec": "none"}]},
    {"id": "3", "vcodec": "none", "url": "u"}]"#;

/// Which entries are jobs, and what the others meet.
const CLASHES: [Row; 13] = [
    (
        TWO_COMBINED,
        Asked {
            selector: "22,18",
            template: "t.%(ext)s",
            ..PLAIN
        },
        "t.mp4 > t.mp4 / Clash { with: Job(0) }",
    ),
    (
        TWO_COMBINED,
        Asked {
            selector: "22,18",
            template: "%(format_id)s",
            ..PLAIN
        },
        "22 > 22 / 18 > 18",
    ),
    (
        BESIDE,
        TITLED,
        "a > a / Clash { with: Job(0) } / Clash { with: Job(0) } / a.par > a.par",
    ),
    (
        AROUND,
        TITLED,
        "a.part-Frag > a.part-Frag / a.ytdl > a.ytdl / Clash { with: Job(0) }",
    ),
    (AS_A_PIECE, TITLED, "Clash { with: Own }"),
    (ALIKE, RESTRICTED, "Clash { with: Own }"),
    (
        ALIKE,
        TITLED,
        "t.fa？.mp4 + t.fa＂.mp4 > t.temp-1.mp4 > t.mp4",
    ),
    (
        VIDEO,
        Asked {
            selector: "22+22",
            several: true,
            ..PLAIN
        },
        "Clash { with: Own }",
    ),
    (
        NAMED_A_NEW,
        Asked {
            archive: Some("a"),
            ..TITLED
        },
        "Clash { with: Archive }",
    ),
    (
        NAMED_A,
        Asked {
            archive: Some("a.ytdl"),
            ..TITLED
        },
        "Clash { with: Archive }",
    ),
    (
        NAMED_A,
        Asked {
            archive: Some("a.new"),
            ..TITLED
        },
        "a > a",
    ),
    (
        VIDEO,
        Asked {
            selector: "22+22",
            several: true,
            template: "a.%(ext)s",
            archive: Some("a.mp4"),
            ..PLAIN
        },
        "Clash { with: Own }",
    ),
    (
        NUMBERED,
        Asked {
            selector: "ba",
            template: "%(autonumber)s",
            ..PLAIN
        },
        "NoFormat / 00002 > 00002 / Pieces { part: 0 } / 00004 > 00004",
    ),
];

#[test]
fn later_names_clash(rt: HostRuntime) -> Result<(), Fail> {
    are_told(&rt, rt.alloc(), Told::Names, &CLASHES)
}
