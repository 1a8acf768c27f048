use crate::asked::{Asked, PLAIN, Row, Told, are_told};
use crate::infos::{APART, AUDIO, SIGNS, VIDEO};
use std::test::Fail;

/// The best video format and the best audio format.
const MERGED: Asked<'static> = Asked {
    selector: "137+140",
    ..PLAIN
};

/// The one combined format, by a short name.
const COMBINED: Asked<'static> = Asked {
    selector: "22",
    template: "t.%(ext)s",
    ..PLAIN
};

/// Opus, by a short name.
const OPUS: Asked<'static> = Asked {
    selector: "251",
    template: "t.%(ext)s",
    ..PLAIN
};

/// The children of steps.
const STEPS: [Row; 9] = [
    (
        VIDEO,
        MERGED,
        "ffmpeg|-y|-i|./yt-dlp test video [BaW_jenozKc].f137.mp4|-i|./yt-dlp test video [BaW_jenozKc].f140.m4a|-map|0:v:0|-map|1:a:0|-c|copy|./yt-dlp test video [BaW_jenozKc].temp-1.mp4",
    ),
    (
        VIDEO,
        Asked {
            selector: "22+140",
            several: true,
            ..COMBINED
        },
        "ffmpeg|-y|-i|./t.f22.mp4|-i|./t.f140.m4a|-map|0:v:0|-map|0:a:0|-map|1:a:0|-c|copy|./t.temp-1.mp4",
    ),
    (VIDEO, COMBINED, ""),
    (
        VIDEO,
        Asked {
            remux: &[(None, "mkv")],
            ..COMBINED
        },
        "ffmpeg|-y|-i|./t.f22.mp4|-c|copy|./t.temp-1.mkv",
    ),
    (
        VIDEO,
        Asked {
            selector: "137+140",
            remux: &[(None, "mkv")],
            ..COMBINED
        },
        "ffmpeg|-y|-i|./t.f137.mp4|-i|./t.f140.m4a|-map|0:v:0|-map|1:a:0|-c|copy|./t.temp-1.mp4; ffmpeg|-y|-i|./t.temp-1.mp4|-c|copy|./t.temp-2.mkv",
    ),
    (
        VIDEO,
        Asked {
            audio: Some(&[]),
            ..COMBINED
        },
        "ffmpeg|-y|-i|./t.f22.mp4|-vn|-c:a|copy|./t.temp-1.m4a",
    ),
    (
        AUDIO,
        Asked {
            audio: Some(&[]),
            ..OPUS
        },
        "ffmpeg|-y|-i|./t.f251.webm|-vn|-c:a|copy|./t.temp-1.opus",
    ),
    (
        AUDIO,
        Asked {
            selector: "f",
            audio: Some(&[(None, "best")]),
            ..OPUS
        },
        "ffmpeg|-y|-i|./t.ff.flac|-vn|-c:a|libmp3lame|./t.temp-1.mp3",
    ),
    (
        AUDIO,
        Asked {
            selector: "f,m,c",
            audio: Some(&[(Some("caf"), "alac"), (None, "flac")]),
            template: "%(format_id)s.%(ext)s",
            ..PLAIN
        },
        " / ffmpeg|-y|-i|./m.fm.mka|-vn|-c:a|flac|./m.temp-1.flac / ffmpeg|-y|-i|./c.fc.caf|-vn|-c:a|alac|./c.temp-1.m4a",
    ),
];

#[test]
fn children_are_asked_for(rt: HostRuntime) -> Result<(), Fail> {
    are_told(&rt, rt.alloc(), Told::Steps, &STEPS)
}

/// Audio targets over AAC: each with its coder and its extension.
const TARGETS: [Row; 8] = [
    (
        VIDEO,
        Asked {
            audio: Some(&[(None, "aac")]),
            ..COMBINED
        },
        "ffmpeg|-y|-i|./t.f22.mp4|-vn|-c:a|copy|./t.temp-1.aac",
    ),
    (
        VIDEO,
        Asked {
            audio: Some(&[(None, "alac")]),
            ..COMBINED
        },
        "ffmpeg|-y|-i|./t.f22.mp4|-vn|-c:a|alac|./t.temp-1.m4a",
    ),
    (
        VIDEO,
        Asked {
            audio: Some(&[(None, "flac")]),
            ..COMBINED
        },
        "ffmpeg|-y|-i|./t.f22.mp4|-vn|-c:a|flac|./t.temp-1.flac",
    ),
    (
        VIDEO,
        Asked {
            audio: Some(&[(None, "m4a")]),
            ..COMBINED
        },
        "ffmpeg|-y|-i|./t.f22.mp4|-vn|-c:a|copy|./t.temp-1.m4a",
    ),
    (
        VIDEO,
        Asked {
            audio: Some(&[(None, "mp3")]),
            ..COMBINED
        },
        "ffmpeg|-y|-i|./t.f22.mp4|-vn|-c:a|libmp3lame|./t.temp-1.mp3",
    ),
    (
        VIDEO,
        Asked {
            audio: Some(&[(None, "opus")]),
            ..COMBINED
        },
        "ffmpeg|-y|-i|./t.f22.mp4|-vn|-c:a|libopus|./t.temp-1.opus",
    ),
    (
        VIDEO,
        Asked {
            audio: Some(&[(None, "vorbis")]),
            ..COMBINED
        },
        "ffmpeg|-y|-i|./t.f22.mp4|-vn|-c:a|libvorbis|./t.temp-1.ogg",
    ),
    (
        VIDEO,
        Asked {
            audio: Some(&[(None, "wav")]),
            ..COMBINED
        },
        "ffmpeg|-y|-i|./t.f22.mp4|-vn|-c:a|pcm_s16le|./t.temp-1.wav",
    ),
];

#[test]
fn audio_is_copied_or_coded(rt: HostRuntime) -> Result<(), Fail> {
    are_told(&rt, rt.alloc(), Told::Steps, &TARGETS)
}

/// Commands for the finished file.
const COMMANDS: [Row; 2] = [
    (
        VIDEO,
        Asked {
            exec: &["echo %(filepath)q", "ls"],
            ..MERGED
        },
        "sh|-c|echo 'yt-dlp test video [BaW_jenozKc].mp4'; sh|-c|ls",
    ),
    (
        VIDEO,
        Asked {
            exec: &["a %(filename)s %(ext)s"],
            remux: &[(None, "mkv")],
            ..COMBINED
        },
        "sh|-c|a t.mkv mp4",
    ),
];

#[test]
fn commands_are_filled(rt: HostRuntime) -> Result<(), Fail> {
    are_told(&rt, rt.alloc(), Told::Execs, &COMMANDS)
}

/// Lines that are printed.
const PRINTED: [Row; 6] = [
    (VIDEO, COMBINED, ""),
    (
        VIDEO,
        Asked {
            prints: &["%(filename)s", "%(filepath)s", ""],
            audio: Some(&[]),
            ..COMBINED
        },
        "t.m4a|t.m4a|",
    ),
    (
        VIDEO,
        Asked {
            prints: &["%(ext)s", "%(autonumber)s"],
            remux: &[(None, "mkv")],
            ..COMBINED
        },
        "mp4|00001",
    ),
    (
        APART,
        Asked {
            selector: "v+a",
            prints: &[
                "%(url)s",
                "%(filesize)s",
                "%(filesize_approx)s",
                "%(protocol)s",
                "%(resolution)s",
                "%(height)s",
                "%(format_id)s",
            ],
            ..PLAIN
        },
        "NA|NA|12|http+https|NA|720|v+a",
    ),
    (
        APART,
        Asked {
            selector: "v",
            prints: &["%(url)s", "%(filesize)s", "%(protocol)s"],
            ..PLAIN
        },
        "http://127.0.0.1:8080/v|5|NA",
    ),
    (
        SIGNS,
        Asked {
            prints: &["%(title)s"],
            ..PLAIN
        },
        "a/b:c?",
    ),
];

#[test]
fn lines_are_printed(rt: HostRuntime) -> Result<(), Fail> {
    are_told(&rt, rt.alloc(), Told::Printed, &PRINTED)
}
