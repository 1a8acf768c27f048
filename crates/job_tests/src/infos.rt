//! Information files.

/// A video in four formats: audio alone, two of video alone, and one of both.
pub(crate) const VIDEO: &str =
    r#"{"id": "BaW_jenozKc", "title": "yt-dlp test video", "extractor_key": "Youtube",
    "upload_date": "20121002", "n": 3, "view_count": 1500000, "formats": [
    {"format_id": "140", "ext": "m4a", "vcodec": "none", "acodec": "mp4a.40.2", "url": "http://127.0.0.1:8080/140"},
    {"format_id": "136", "ext": "mp4", "vcodec": "avc1.4d401f", "acodec": "none", "width": 1280, "height": 720,
     "url": "http://127.0.0.1:8080/136"},
    {"format_id": "137", "ext": "mp4", "vcodec": "avc1.640028", "acodec": "none", "width": 1920, "height": 1080,
     "url": "http://127.0.0.1:8080/137"},
    {"format_id": "22", "ext": "mp4", "vcodec": "avc1.64001F", "acodec": "mp4a.40.2", "width": 1280, "height": 720,
     "url": "http://127.0.0.1:8080/22"}]}"#;

/// The same with pictures, and with keys that no job asks for.
pub(crate) const WITH_PICTURES: &str =
    r#"{"id": "BaW_jenozKc", "title": "yt-dlp test video", "extractor_key": "Youtube",
    "thumbnails": [{"url": "https://i/t.jpg", "preference": -1}], "http_headers": {"Accept": "*/*"}, "n": 3, "formats": [
    {"format_id": "sb0", "ext": "mhtml", "vcodec": "none", "acodec": "none", "url": "https://i/sb"},
    {"format_id": "140", "ext": "m4a", "vcodec": "none", "acodec": "mp4a.40.2", "url": "http://127.0.0.1:8080/140"},
    {"format_id": "136", "ext": "mp4", "vcodec": "avc1.4d401f", "acodec": "none", "width": 1280, "height": 720,
     "url": "http://127.0.0.1:8080/136"},
    {"format_id": "137", "ext": "mp4", "vcodec": "avc1.640028", "acodec": "none", "width": 1920, "height": 1080,
     "url": "http://127.0.0.1:8080/137"},
    {"format_id": "22", "ext": "mp4", "vcodec": "avc1.64001F", "acodec": "mp4a.40.2", "width": 1280, "height": 720,
     "url": "http://127.0.0.1:8080/22"}]}"#;

/// An item that is its own format, with signs in its title.
pub(crate) const SIGNS: &str =
    r#"{"id": "x", "title": "a/b:c?", "n": 3, "ext": "mp4", "url": "http://127.0.0.1:8080/x"}"#;

/// Titles that are a step up.
pub(crate) const UP: &str =
    r#"{"id": "x", "title": "..", "ext": "mp4", "url": "http://127.0.0.1:8080/x"}"#;

pub(crate) const TWICE_UP: &str =
    r#"{"id": "x", "title": "../..", "ext": "mp4", "url": "http://127.0.0.1:8080/x"}"#;

/// Audio alone: Opus, FLAC in two files, and ALAC.
pub(crate) const AUDIO: &str = r#"{"id": "x", "title": "t", "formats": [
    {"format_id": "251", "ext": "webm", "vcodec": "none", "acodec": "opus", "url": "http://127.0.0.1:8080/251"},
    {"format_id": "f", "ext": "flac", "vcodec": "none", "acodec": "flac", "url": "http://127.0.0.1:8080/f"},
    {"format_id": "m", "ext": "mka", "vcodec": "none", "acodec": "flac", "url": "http://127.0.0.1:8080/m"},
    {"format_id": "c", "ext": "caf", "vcodec": "none", "acodec": "alac", "url": "http://127.0.0.1:8080/c"}]}"#;

/// A format with video and one with audio, over two protocols.
pub(crate) const APART: &str = r#"{"id": "x", "title": "t", "formats": [
    {"format_id": "v", "ext": "mp4", "acodec": "none", "height": 720, "filesize": 5, "url": "http://127.0.0.1:8080/v"},
    {"format_id": "a", "ext": "m4a", "vcodec": "none", "filesize": 7, "url": "https://127.0.0.1:8080/a"}]}"#;
