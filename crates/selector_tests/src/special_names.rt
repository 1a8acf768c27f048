use sel_lang::{Media, Pick, Sel, read_sel};
use std::test::Fail;

/// What a special name asks for: whether from the worst on, of which streams, whether with others beside them, and which one.
type Asked = (bool, Media, bool, u64);

/// Special names, each with what it asks for.
const SPECIAL: [(&str, Asked); 24] = [
    ("best", (false, Media::Any, false, 1)),
    ("b", (false, Media::Any, false, 1)),
    ("worst", (true, Media::Any, false, 1)),
    ("w", (true, Media::Any, false, 1)),
    ("b*", (false, Media::Any, true, 1)),
    ("worst*", (true, Media::Any, true, 1)),
    ("bestvideo", (false, Media::Video, false, 1)),
    ("bv", (false, Media::Video, false, 1)),
    ("bvideo", (false, Media::Video, false, 1)),
    ("bestv", (false, Media::Video, false, 1)),
    ("bv*", (false, Media::Video, true, 1)),
    ("wv", (true, Media::Video, false, 1)),
    ("worstvideo*", (true, Media::Video, true, 1)),
    ("bestaudio", (false, Media::Audio, false, 1)),
    ("ba", (false, Media::Audio, false, 1)),
    ("ba*", (false, Media::Audio, true, 1)),
    ("worstaudio", (true, Media::Audio, false, 1)),
    ("wa*", (true, Media::Audio, true, 1)),
    ("best.1", (false, Media::Any, false, 1)),
    ("best.2", (false, Media::Any, false, 2)),
    ("w.10", (true, Media::Any, false, 10)),
    ("bestvideo*.2", (false, Media::Video, true, 2)),
    ("ba.3", (false, Media::Audio, false, 3)),
    (
        "b.18446744073709551615",
        (false, Media::Any, false, 18_446_744_073_709_551_615),
    ),
];

/// Names that look like special names, or like extensions, and are ids.
const IDS: [&str; 14] = [
    "best.0", "best.01", "Best", "MP4", "best.", "best.x", "best.2*", "b*v", "bav", "bb", "all.2",
    "ALL", "webm2", "22",
];

/// Names that are extensions.
const EXTENSIONS: [&str; 9] = [
    "3gp", "flv", "mp4", "webm", "aac", "m4a", "mp3", "ogg", "wav",
];

fn asked(sel: &Sel) -> Option<Asked> {
    match sel {
        Sel::Name(
            Pick::Ranked {
                worst,
                media,
                star,
                n,
            },
        ) => Some((*worst, *media, *star, *n)),
        _ => None,
    }
}

fn id(sel: &Sel) -> Option<&str> {
    match sel {
        Sel::Name(Pick::Id(text)) => Some(text.as_str()),
        _ => None,
    }
}

fn extension(sel: &Sel) -> Option<&str> {
    match sel {
        Sel::Name(Pick::Ext(text)) => Some(text.as_str()),
        _ => None,
    }
}

#[test]
fn special_names_say_what_they_ask_for(rt: HostRuntime) -> Result<(), Fail> {
    for (text, wanted) in &SPECIAL {
        let sel = read_sel(rt.alloc(), text)?;
        assert_eq!(rt; asked(&sel), Some(*wanted), "{text}");
    }
    Ok(())
}

#[test]
fn other_names_are_ids_or_extensions(rt: HostRuntime) -> Result<(), Fail> {
    for text in &IDS {
        let sel = read_sel(rt.alloc(), text)?;
        assert_eq!(rt; id(&sel), Some(*text), "{text}");
    }
    for text in &EXTENSIONS {
        let sel = read_sel(rt.alloc(), text)?;
        assert_eq!(rt; extension(&sel), Some(*text), "{text}");
    }
    Ok(())
}

#[test]
fn all_and_mergeall_are_names_of_their_own(rt: HostRuntime) -> Result<(), Fail> {
    let all = read_sel(rt.alloc(), "all")?;
    assert!(rt; matches!(&all, Sel::Name(Pick::All)));
    let merged = read_sel(rt.alloc(), "mergeall")?;
    assert!(rt; matches!(&merged, Sel::Name(Pick::MergeAll)));
    Ok(())
}
