use crate::asked::{PLAIN, Row, Told, are_told};
use crate::infos::VIDEO;
use std::test::Fail;

/// What is fetched, or the part that can't be.
const PIECES: [Row; 13] = [
    (
        VIDEO,
        PLAIN,
        "<http://127.0.0.1:8080/137><http://127.0.0.1:8080/140>",
    ),
    (
        r#"{"id": "x", "url": "HTTP://Example.com:80/a/../b?c#d"}"#,
        PLAIN,
        "<http://example.com/b?c>",
    ),
    (r#"{"id": "x", "url": "zz#d"}"#, PLAIN, "<zz#d>"),
    (r#"{"id": "x", "url": ""}"#, PLAIN, "<>"),
    (
        r#"{"id": "x", "formats": [{"format_id": "f"}]}"#,
        PLAIN,
        "Pieces { part: 0 }",
    ),
    (
        r#"{"id": "x", "url": "https://example.com/v", "http_headers": {"Referer": "r", "X": 3, "Accept": "*/*"}}"#,
        PLAIN,
        "<https://example.com/v Referer: r Accept: */*>",
    ),
    (
        r#"{"id": "x", "url": "http://h/v", "fragments": []}"#,
        PLAIN,
        "Pieces { part: 0 }",
    ),
    (
        r#"{"id": "x", "url": "http://h/v", "fragments": {}}"#,
        PLAIN,
        "<http://h/v>",
    ),
    (
        r#"{"id": "x", "url": "http://h/v", "fragments": [{"path": "p"}]}"#,
        PLAIN,
        "Pieces { part: 0 }",
    ),
    (
        r#"{"id": "x", "fragment_base_url": "zz", "fragments": [{"path": "http://k/p"}]}"#,
        PLAIN,
        "Pieces { part: 0 }",
    ),
    (
        r#"{"id": "x", "fragment_base_url": "http://k/a/b", "fragments": [{"path": "p#q"}, {"url": "http://h/2", "path": "3"}]}"#,
        PLAIN,
        "<http://k/a/p><http://h/2>",
    ),
    (
        r#"{"id": "x", "fragment_base_url": "http://k/", "fragments": [{"path": "p"}, {"duration": 2.5}]}"#,
        PLAIN,
        "Pieces { part: 0 }",
    ),
    (
        r#"{"id": "x", "formats": [{"format_id": "v", "acodec": "none", "url": "http://h/v"}, {"format_id": "a", "vcodec": "none"}]}"#,
        PLAIN,
        "Pieces { part: 1 }",
    ),
];

#[test]
fn pieces_are_fetched(rt: HostRuntime) -> Result<(), Fail> {
    are_told(&rt, rt.alloc(), Told::Pieces, &PIECES)
}

/// The records of components.
const RECORDS: [Row; 3] = [
    (
        VIDEO,
        PLAIN,
        "ytdl-plan 1\n1\nu http://127.0.0.1:8080/137\nytdl-plan 1\n1\nu http://127.0.0.1:8080/140\n",
    ),
    (
        r#"{"id": "x", "url": "https://example.com/v"}"#,
        PLAIN,
        "ytdl-plan 1\n1\nx\n",
    ),
    (
        r#"{"id": "x", "fragment_base_url": "http://k/", "fragments": [{"path": "p"}, {"url": "zz"}, {"path": "q"}]}"#,
        PLAIN,
        "ytdl-plan 1\n3\nu http://k/p\nx\nu http://k/q\n",
    ),
];

#[test]
fn records_are_written(rt: HostRuntime) -> Result<(), Fail> {
    are_told(&rt, rt.alloc(), Told::Records, &RECORDS)
}
