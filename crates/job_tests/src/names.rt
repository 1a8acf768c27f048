use crate::asked::{Asked, PLAIN, Row, Told, are_told};
use crate::infos::{APART, SIGNS, TWICE_UP, UP, VIDEO, WITH_PICTURES};
use std::test::Fail;

/// The one combined format.
const COMBINED: Asked<'static> = Asked {
    selector: "22",
    ..PLAIN
};

/// The best video format and the best audio format.
const MERGED: Asked<'static> = Asked {
    selector: "137+140",
    template: "t.%(ext)s",
    ..PLAIN
};

/// The files that are fetched, the outputs of steps and the final name, or the fault.
const NAMES: [Row; 24] = [
    (
        VIDEO,
        PLAIN,
        "yt-dlp test video [BaW_jenozKc].f137.mp4 + yt-dlp test video [BaW_jenozKc].f140.m4a > yt-dlp test video [BaW_jenozKc].temp-1.mp4 > yt-dlp test video [BaW_jenozKc].mp4",
    ),
    (
        WITH_PICTURES,
        PLAIN,
        "yt-dlp test video [BaW_jenozKc].f137.mp4 + yt-dlp test video [BaW_jenozKc].f140.m4a > yt-dlp test video [BaW_jenozKc].temp-1.mp4 > yt-dlp test video [BaW_jenozKc].mp4",
    ),
    (
        VIDEO,
        Asked {
            selector: "bestaudio+best",
            ..PLAIN
        },
        "yt-dlp test video [BaW_jenozKc].m4a > yt-dlp test video [BaW_jenozKc].m4a",
    ),
    (
        VIDEO,
        Asked {
            selector: "best[height=1080]",
            ..PLAIN
        },
        "NoFormat",
    ),
    (
        VIDEO,
        Asked {
            template: "%(title)s-%(id)s.%(ext)s",
            ..COMBINED
        },
        "yt-dlp test video-BaW_jenozKc.mp4 > yt-dlp test video-BaW_jenozKc.mp4",
    ),
    (
        VIDEO,
        Asked {
            template: "%(title)s-[%(id)s].%(ext)s",
            restricted: true,
            ..COMBINED
        },
        "yt-dlp_test_video-[BaW_jenozKc].mp4 > yt-dlp_test_video-[BaW_jenozKc].mp4",
    ),
    (
        VIDEO,
        Asked {
            template: "%(id)s",
            ..MERGED
        },
        "BaW_jenozKc.f137.mp4 + BaW_jenozKc.f140.m4a > BaW_jenozKc.temp-1.mp4 > BaW_jenozKc.mp4",
    ),
    (
        SIGNS,
        Asked {
            template: "%(missing|a/b)s.%(ext)s",
            ..PLAIN
        },
        "a/b.mp4 > a/b.mp4",
    ),
    (
        SIGNS,
        Asked {
            template: "%(title)s",
            ..PLAIN
        },
        "a⧸b：c？ > a⧸b：c？",
    ),
    (
        SIGNS,
        Asked {
            template: "%(title)s",
            restricted: true,
            ..PLAIN
        },
        "a_b_-c > a_b_-c",
    ),
    (
        SIGNS,
        Asked {
            template: "%(n)3d",
            restricted: true,
            ..PLAIN
        },
        "__3 > __3",
    ),
    (
        SIGNS,
        Asked {
            template: "%(filename)s",
            ..PLAIN
        },
        "NA > NA",
    ),
    (
        SIGNS,
        Asked {
            template: ".%(ext)s",
            ..PLAIN
        },
        ".mp4 > .mp4",
    ),
    (
        SIGNS,
        Asked {
            template: "a/.%(ext)s",
            ..PLAIN
        },
        "a/.mp4 > a/.mp4",
    ),
    (
        SIGNS,
        Asked {
            template: "abcdef/ghijkl.%(ext)s",
            trim: 3,
            ..PLAIN
        },
        "abcdef/ghi.mp4 > abcdef/ghi.mp4",
    ),
    (
        SIGNS,
        Asked {
            template: "äöüß.%(ext)s",
            trim: 3,
            ..PLAIN
        },
        "äöü.mp4 > äöü.mp4",
    ),
    (
        SIGNS,
        Asked {
            template: "abcdef.mp4x",
            trim: 3,
            ..PLAIN
        },
        "abc > abc",
    ),
    (
        SIGNS,
        Asked {
            template: "",
            ..PLAIN
        },
        "Path(Empty)",
    ),
    (
        SIGNS,
        Asked {
            template: "x\ty",
            ..PLAIN
        },
        "Path(Control)",
    ),
    (
        SIGNS,
        Asked {
            template: "/%(id)s",
            ..PLAIN
        },
        "Path(Absolute)",
    ),
    (
        SIGNS,
        Asked {
            template: "%(id)s/../y",
            ..PLAIN
        },
        "Path(DotDot)",
    ),
    (
        UP,
        Asked {
            template: "%(title)s",
            ..PLAIN
        },
        "Path(DotDot)",
    ),
    (
        TWICE_UP,
        Asked {
            template: "%(title)s",
            ..PLAIN
        },
        "..⧸.. > ..⧸..",
    ),
    (
        VIDEO,
        Asked {
            template: "%(title)99999s",
            ..COMBINED
        },
        "Path(Long { component: 0 })",
    ),
];

#[test]
fn files_are_named(rt: HostRuntime) -> Result<(), Fail> {
    are_told(&rt, rt.alloc(), Told::Names, &NAMES)
}

/// The same where steps make the finished file.
const STEPS: [Row; 12] = [
    (
        VIDEO,
        Asked {
            remux: &[(None, "mkv")],
            template: "t.%(ext)s",
            ..COMBINED
        },
        "t.f22.mp4 > t.temp-1.mkv > t.mkv",
    ),
    (
        VIDEO,
        Asked {
            remux: &[(Some("webm"), "mp4"), (None, "mp4")],
            template: "t.%(ext)s",
            ..COMBINED
        },
        "t.mp4 > t.mp4",
    ),
    (
        VIDEO,
        Asked {
            remux: &[(Some("webm"), "mkv")],
            template: "t.%(ext)s",
            ..COMBINED
        },
        "t.mp4 > t.mp4",
    ),
    (
        VIDEO,
        Asked {
            remux: &[(Some("webm"), "mp4"), (Some("mp4"), "mov"), (None, "mkv")],
            ..MERGED
        },
        "t.f137.mp4 + t.f140.m4a > t.temp-1.mp4 > t.temp-2.mov > t.mov",
    ),
    (
        SIGNS,
        Asked {
            remux: &[(None, "mkv")],
            template: ".%(ext)s",
            ..PLAIN
        },
        ".mp4.f0.mp4 > .mp4.temp-1.mkv > .mp4.mkv",
    ),
    (
        SIGNS,
        Asked {
            remux: &[(None, "mkv")],
            template: "a/bcdef.%(ext)s",
            trim: 3,
            ..PLAIN
        },
        "a/bcd.f0.mp4 > a/bcd.temp-1.mkv > a/bcd.mkv",
    ),
    (
        VIDEO,
        Asked {
            audio: Some(&[]),
            remux: &[(None, "mkv")],
            selector: "140",
            ..MERGED
        },
        "t.m4a > t.m4a",
    ),
    (
        VIDEO,
        Asked {
            audio: Some(&[(Some("opus"), "mp3")]),
            selector: "140",
            ..MERGED
        },
        "t.m4a > t.m4a",
    ),
    (
        VIDEO,
        Asked {
            audio: Some(&[(None, "m4a"), (None, "mp3")]),
            selector: "140",
            ..MERGED
        },
        "t.m4a > t.m4a",
    ),
    (
        VIDEO,
        Asked {
            audio: Some(&[(None, "mp3")]),
            selector: "140",
            ..MERGED
        },
        "t.f140.m4a > t.temp-1.mp3 > t.mp3",
    ),
    (
        VIDEO,
        Asked {
            audio: Some(&[]),
            ..MERGED
        },
        "t.f137.mp4 + t.f140.m4a > t.temp-1.mp4 > t.temp-2.m4a > t.m4a",
    ),
    (
        APART,
        Asked {
            selector: "a,v",
            ..MERGED
        },
        "t.m4a > t.m4a / t.mp4 > t.mp4",
    ),
];

#[test]
fn outputs_are_named(rt: HostRuntime) -> Result<(), Fail> {
    are_told(&rt, rt.alloc(), Told::Names, &STEPS)
}
