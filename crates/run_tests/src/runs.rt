use crate::words::texts;
use job_plan::{ClashWith, JobFault};
use std::alloc::Global;
use std::process::Abort;
use std::test::Fail;
use ytdl_core::{End, InfoMem, JobEnd, SinkMem, run, status};

/// A format of sound, two of pictures and one of both.
const VIDEO: &str =
    r#"{"id":"BaW_jenozKc","title":"yt-dlp test video","upload_date":"20121002","n":3,"formats":[
    {"format_id":"140","ext":"m4a","vcodec":"none","acodec":"mp4a.40.2","url":"http://127.0.0.1:8080/140"},
    {"format_id":"136","ext":"mp4","vcodec":"avc1.4d401f","acodec":"none","width":1280,"height":720,"url":"http://127.0.0.1:8080/136"},
    {"format_id":"137","ext":"mp4","vcodec":"avc1.640028","acodec":"none","width":1920,"height":1080,"url":"http://127.0.0.1:8080/137"},
    {"format_id":"22","ext":"mp4","vcodec":"avc1.64001F","acodec":"mp4a.40.2","width":1280,"height":720,"url":"http://127.0.0.1:8080/22"}]}"#;

/// An item with one format of both streams, one without a stream, and one without a URL.
const THREE: &str = r#"[{"id":1,"title":"Größe 日本","formats":[{"format_id":136,"url":"u"}]},
    {"id":"2","title":"t","formats":[{"format_id":"7","ext":"mhtml","vcodec":"none","acodec":"none","url":"u"}]},
    {"id":"3","title":"t","formats":[{"format_id":"8","ext":"mp4"}]}]"#;

/// Two items, of which the first has two formats.
const TWO: &str =
    r#"[{"id":"a","title":"t","formats":[{"format_id":"s","height":480,"url":"u"},{"format_id":"l","height":1080,"url":"u"}]},
    {"id":"b","title":"t","formats":[{"format_id":"s","height":480,"url":"u"}]}]"#;

/// A title that leads out of the folder.
const POINTS: &str =
    r#"{"id":"i","title":"..","formats":[{"format_id":"1","ext":"mp4","url":"u"}]}"#;

/// Three formats with both streams.
const SIZES: &str = r#"{"id":"i","title":"T","formats":[
    {"format_id":"a","ext":"aaa","width":854,"height":480,"url":"u"},
    {"format_id":"b","ext":"bbb","width":1920,"height":1080,"url":"u"},
    {"format_id":"c","ext":"ccc","width":3840,"height":2160,"url":"u"}]}"#;

/// Words, the information, what is printed on standard output and on standard error, and the status.
type Row = (
    &'static [&'static str],
    &'static str,
    &'static str,
    &'static str,
    u8,
);

/// A run over this information ends so, where these calls of its source and of its output fail.
fn answers(rt: &impl Abort, alloc: Global, row: &Row, plan: (&[u64], &[u64])) -> Result<(), Fail> {
    let words = texts(alloc, row.0)?;
    let bytes = row.1.as_bytes().to_vec(alloc)?;
    let mut source = InfoMem::new(alloc, "i.json", bytes, plan.0.to_vec(alloc)?)?;
    let mut out = SinkMem::new(alloc, plan.1.to_vec(alloc)?)?;
    let mut err = SinkMem::new(alloc, Vec::new(alloc))?;
    let end = run(alloc, &words, &mut source, &mut out, &mut err);
    assert_eq!(rt; out.bytes(), row.2.as_bytes());
    assert_eq!(rt; err.bytes(), row.3.as_bytes());
    assert_eq!(rt; status(&end), row.4);
    Ok(())
}

const SIMULATE: [&str; 3] = ["--load-info-json", "i.json", "-s"];

/// What is printed of jobs, in the order of the words, and the line of a simulated one.
const PRINTS: [Row; 6] = [
    (
        &SIMULATE,
        VIDEO,
        "[simulate] yt-dlp test video [BaW_jenozKc].mp4\n",
        "",
        0,
    ),
    (
        &["--load-info-json", "i.json", "-s", "-q"],
        VIDEO,
        "",
        "",
        0,
    ),
    (
        &[
            "--load-info-json",
            "i.json",
            "--print",
            "format_id",
            "--print",
            "%(n+10)03d",
            "--no-quiet",
        ],
        VIDEO,
        "137+140\n013\n[simulate] yt-dlp test video [BaW_jenozKc].mp4\n",
        "",
        0,
    ),
    (
        &[
            "--load-info-json",
            "i.json",
            "-x",
            "--audio-format=mp3",
            "-f22",
            "--print=filename",
            "--print=filepath",
        ],
        VIDEO,
        "yt-dlp test video [BaW_jenozKc].mp3\nyt-dlp test video [BaW_jenozKc].mp3\n",
        "",
        0,
    ),
    (
        &[
            "--load-info-json",
            "i.json",
            "-f22",
            "--restrict-filenames",
            "--print",
            "filename",
        ],
        VIDEO,
        "yt-dlp_test_video-[BaW_jenozKc].mp4\n",
        "",
        0,
    ),
    (&SIMULATE, "[]", "", "", 0),
];

/// Entries that are no jobs: each with a line that names its item, whatever its place among the entries.
const ENTRIES: [Row; 6] = [
    (
        &["--load-info-json", "i.json", "--print", "filename"],
        THREE,
        "Größe 日本 [1].unknown_video\n",
        "ERROR: item 2: requested format is not available\nERROR: item 3: nothing to fetch\n",
        1,
    ),
    (
        &[
            "--load-info-json",
            "i.json",
            "-fb,b.2",
            "-o",
            "%(autonumber)s %(id)s",
            "--print",
            "filename",
        ],
        TWO,
        "00001 a\n00002 a\n00003 b\n",
        "",
        0,
    ),
    (
        &[
            "--load-info-json",
            "i.json",
            "-fb,b.2",
            "-o",
            "%(id)s",
            "-s",
        ],
        TWO,
        "[simulate] a\n[simulate] b\n",
        "ERROR: item 1: file name is taken\n",
        1,
    ),
    (
        &["--load-info-json", "i.json", "-s", "-o", "%(title)s"],
        POINTS,
        "",
        "ERROR: item 1: bad file name\n",
        1,
    ),
    (
        &[
            "--load-info-json",
            "i.json",
            "-s",
            "-f22",
            "-o",
            "aaaaaaaaaaaaaaaaaaaaaaaaaaaaaaaaaaaaaaaaaaaaaaaaaaaaaaaaaaaaaaaaaaaaaaaaaaaaaaaaaaaaaaaaaaaaaaaaaaaaaaaaaaaaaaaaaaaaaaaaaaaaaaaaaaaaaaaaaaaaaaaaaaaaaaaaaaaaaaaaaaaaaaaaaaaaaaaaaaaaaaaaaaaaaaaaaaaaaaaaaaaaaaaaaaaaaaaaaaaaaa.%(ext)s",
        ],
        VIDEO,
        "",
        "ERROR: item 1: file name is too long\n",
        1,
    ),
    (
        &["--load-info-json", "i.json", "-s", "-f", "22,22", "-o", "n"],
        VIDEO,
        "[simulate] n\n",
        "ERROR: item 1: file name is taken\n",
        1,
    ),
];

const FAULTS: [Row; 8] = [
    (&[], VIDEO, "", "ERROR: word 1: no --load-info-json\n", 2),
    (
        &["--load-info-json"],
        VIDEO,
        "",
        "ERROR: word 1: value missing\n",
        2,
    ),
    (
        &["--load-info-json", "i.json", "-f22"],
        VIDEO,
        "",
        "ERROR: word 4: not built\n",
        2,
    ),
    (
        &["--selftest", "3", "-s"],
        VIDEO,
        "",
        "ERROR: word 4: not built\n",
        2,
    ),
    (
        &["--load-info-json", "i.json", "-s", "-S", "res,foo"],
        VIDEO,
        "",
        "ERROR: word 4: bad sort field\n",
        2,
    ),
    (&SIMULATE, "", "", "ERROR: info: bad JSON at byte 0\n", 1),
    (
        &SIMULATE,
        "{} x",
        "",
        "ERROR: info: bad JSON at byte 3\n",
        1,
    ),
    (&SIMULATE, "[3]", "", "ERROR: info: item 1 is no map\n", 1),
];

/// Formats by their place, and by a size that they are near.
const CHOICES: [Row; 3] = [
    (
        &["--load-info-json", "i.json", "-fb.3,b", "-s"],
        SIZES,
        "[simulate] T [i].aaa\n[simulate] T [i].ccc\n",
        "",
        0,
    ),
    (
        &["--load-info-json", "i.json", "-fbest", "-Sres:720", "-s"],
        SIZES,
        "[simulate] T [i].aaa\n",
        "",
        0,
    ),
    (
        &[
            "--load-info-json",
            "i.json",
            "-fb",
            "-S+res",
            "-Sres~1080",
            "-s",
        ],
        SIZES,
        "[simulate] T [i].bbb\n",
        "",
        0,
    ),
];

/// Each row is a run in which no call fails.
fn answer(rt: &(impl Abort + AllocGlobal), rows: &[Row]) -> Result<(), Fail> {
    for row in rows {
        answers(rt, rt.alloc(), row, (&[], &[]))?;
    }
    Ok(())
}

#[test]
fn runs_end_as_their_rows_say(rt: HostRuntime) -> Result<(), Fail> {
    answer(&rt, &PRINTS)?;
    answer(&rt, &ENTRIES)?;
    answer(&rt, &FAULTS)?;
    answer(&rt, &CHOICES)
}

#[test]
fn an_end_tells_the_item_and_the_fault(rt: HostRuntime) -> Result<(), Fail> {
    let alloc = rt.alloc();
    let words = texts(
        alloc,
        &[
            "--load-info-json",
            "i.json",
            "-s",
            "-fb,b.2",
            "-o",
            "%(id)s",
        ],
    )?;
    let bytes = TWO.as_bytes().to_vec(alloc)?;
    let mut source = InfoMem::new(alloc, "i.json", bytes, Vec::new(alloc))?;
    let mut out = SinkMem::new(alloc, Vec::new(alloc))?;
    let mut err = SinkMem::new(alloc, Vec::new(alloc))?;
    let clash = JobFault::Clash {
        with: ClashWith::Job(0),
    };
    let expected = [
        JobEnd {
            item: 0,
            end: End::Shown,
        },
        JobEnd {
            item: 0,
            end: End::Fault(clash),
        },
        JobEnd {
            item: 1,
            end: End::Shown,
        },
    ];
    let told = match run(alloc, &words, &mut source, &mut out, &mut err) {
        Ok(report) => report.ends.as_slice() == expected.as_slice(),
        Err(_) => false,
    };
    assert!(rt; told);
    Ok(())
}

#[test]
fn planned_calls_fail(rt: HostRuntime) -> Result<(), Fail> {
    let read: Row = (&SIMULATE, VIDEO, "", "ERROR: info: reading failed\n", 1);
    answers(&rt, rt.alloc(), &read, (&[1], &[]))?;
    let written: Row = (&SIMULATE, VIDEO, "", "", 1);
    answers(&rt, rt.alloc(), &written, (&[], &[0]))
}
