use fmt_sort::{read_sort, sort_formats};
use info_item::{Item, read_items};
use info_tree::read_tree;
use sel_eval::{ChooseFault, Streams, choose};
use sel_lang::read_sel;
use std::alloc::Global;
use std::fmt::Write;
use std::test::*;
use text_base::Text;

fn streams(alloc: Global, several: bool, containers: &[&str]) -> Result<Streams, Fail> {
    let mut merge_ext = Vec::new(alloc);
    for container in containers {
        merge_ext.push(Text::new(alloc, container)?)?;
    }
    Ok(Streams {
        video: several,
        audio: several,
        merge_ext,
    })
}

/// What a selector gives of an item: the ids of each choice's parts with `+`, and its extension, with a space between
/// choices; or that there are too many.
fn chosen(
    alloc: Global,
    item: &Item<'_>,
    selector: &str,
    streams: &Streams,
) -> Result<String, Fail> {
    let order = sort_formats(
        alloc,
        &read_sort(alloc, &Vec::new(alloc), false, false)?,
        item,
    )?;
    let mut line = String::new(alloc);
    let combos = match choose(alloc, &read_sel(alloc, selector)?, item, &order, streams) {
        Ok(combos) => combos,
        Err(ChooseFault::TooMany) => {
            line.push_str("too many")?;
            return Ok(line);
        }
        Err(fault) => return Err(fault.into()),
    };
    for combo in &combos {
        let mut joint = if line.is_empty() { "" } else { " " };
        for place in &combo.parts {
            line.push_str(joint)?;
            joint = "+";
            if let Some(format) = item.formats().get(*place) {
                line.push_str(format.id())?;
            }
        }
        line.push_str(".")?;
        line.push_str(combo.ext.as_str())?;
    }
    Ok(line)
}

/// The first selector of some rows that gives something else than is written behind it.
fn first_wrong<'r>(
    alloc: Global,
    streams: &Streams,
    rows: &[(&str, &'r str, &str)],
) -> Result<Option<&'r str>, Fail> {
    for (info, selector, wanted) in rows {
        let tree = read_tree(alloc, info.as_bytes())?;
        for item in &read_items(alloc, &tree)? {
            if chosen(alloc, item, selector, streams)?.as_str() != *wanted {
                return Ok(Some(*selector));
            }
        }
    }
    Ok(None)
}

/// One of pictures, two with audio alone, two with video alone, one with both: each of a kind better than those before it.
const MIXED: &str = r#"{"id": "x", "formats": [
    {"format_id": "sb", "ext": "mhtml", "vcodec": "none", "acodec": "none"},
    {"format_id": "a1", "ext": "weba", "vcodec": "none", "acodec": "opus", "abr": 64, "preference": 1},
    {"format_id": "a2", "ext": "m4a", "vcodec": "none", "acodec": "mp4a.40.2", "abr": 128, "preference": 2},
    {"format_id": "v1", "ext": "mp4", "vcodec": "avc1.4d401f", "acodec": "none", "height": 720, "preference": 1},
    {"format_id": "v2", "ext": "mp4", "vcodec": "avc1.640028", "acodec": "none", "height": 1080, "preference": 2},
    {"format_id": "22", "ext": "mp4", "vcodec": "avc1.64001F", "acodec": "mp4a.40.2", "height": 720, "preference": 3}]}"#;

const AUDIO: &str = r#"{"id": "x", "formats": [
    {"format_id": "a1", "ext": "weba", "vcodec": "none", "abr": 64},
    {"format_id": "a2", "ext": "m4a", "vcodec": "none", "abr": 128}]}"#;

const APART: &str = r#"{"id": "x", "formats": [
    {"format_id": "140", "ext": "m4a", "vcodec": "none"},
    {"format_id": "251", "ext": "webm", "vcodec": "none"},
    {"format_id": "248", "ext": "webm", "acodec": "none"},
    {"format_id": "137", "ext": "mp4", "acodec": "none"}]}"#;

const COMBINED: &str = r#"{"id": "x", "formats": [
    {"format_id": "22", "height": 720}, {"format_id": "37", "height": 1080}]}"#;

/// An item that is its own format.
const ALONE: &str = r#"{"id": "x", "ext": "mp4", "url": "https://example.com/x"}"#;

#[test]
fn selectors_choose(rt: HostRuntime) -> Result<(), Fail> {
    let alloc = rt.alloc();
    let rows = [
        (COMBINED, "best[height=720]", "22.unknown_video"),
        (COMBINED, "best", "37.unknown_video"),
        (COMBINED, "best.2", "22.unknown_video"),
        (COMBINED, "best.3", ""),
        (COMBINED, "worst", "22.unknown_video"),
        (MIXED, "bestaudio+best", "a2.m4a"),
        (MIXED, "bestvideo+best+bestaudio", "v2+a2.mp4"),
        (MIXED, "bv*+ba/b", "22.mp4"),
        (APART, "b", ""),
        (AUDIO, "b", "a2.m4a"),
        (AUDIO, "b[abr>100]", "a2.m4a"),
        (MIXED, "b[vcodec=none]", ""),
        (MIXED, "sb", "sb.mhtml"),
        (MIXED, "sb+sb", ""),
        (MIXED, "sb/a1", "sb.mhtml"),
        (MIXED, "sb+sb/a1", "a1.weba"),
        (MIXED, "v1+a1+v2+a2", "v1+a1.mkv"),
        (MIXED, "a2+v1", "a2+v1.mp4"),
        (MIXED, "(bv,ba)+a2", "v2+a2.mp4 a2.m4a"),
        (
            MIXED,
            "(v1,v2)+(a1,a2)",
            "v1+a1.mkv v1+a2.mp4 v2+a1.mkv v2+a2.mp4",
        ),
        (MIXED, "ba[height!=720]", ""),
        (MIXED, "ba[height!=?720]", "a2.m4a"),
        (MIXED, "all", "22.mp4 v2.mp4 v1.mp4 a2.m4a a1.weba"),
        (MIXED, "mergeall", "22.mp4"),
        (MIXED, "mp4/m4a", "22.mp4"),
        (MIXED, "m4a", "a2.m4a"),
        (MIXED, "bv[ext~='^mp4$']", "v2.mp4"),
        (MIXED, "bv[vcodec^=avc1][format_id!$=2]", "v1.mp4"),
        (MIXED, "bv+ba[abr<100]", "v2+a1.mkv"),
        (MIXED, "wa*[acodec*=p4a.40],w", "a2.m4a 22.mp4"),
        (ALONE, "0", "0.mp4"),
        (ALONE, "all[format_id=0]", ""),
    ];
    assert_eq!(rt;
        first_wrong(alloc, &streams(alloc, false, &[])?, &rows)?,
        None
    );
    Ok(())
}

#[test]
fn merges_have_containers(rt: HostRuntime) -> Result<(), Fail> {
    let alloc = rt.alloc();
    let several = [
        (MIXED, "v1+a1+v2+a2", "v1+a1+v2+a2.mkv"),
        (MIXED, "mergeall", "22+v2+v1+a2+a1.mkv"),
        (APART, "137+140", "137+140.mp4"),
        (APART, "248+251", "248+251.webm"),
        (APART, "248+140", "248+140.mkv"),
    ];
    assert_eq!(rt;
        first_wrong(alloc, &streams(alloc, true, &[])?, &several)?,
        None
    );
    let asked = [(APART, "137+140,140", "137+140.mov 140.m4a")];
    assert_eq!(rt;
        first_wrong(alloc, &streams(alloc, false, &["avi", "mov"])?, &asked)?,
        None
    );
    let last = [(APART, "137+140", "137+140.webm")];
    assert_eq!(rt;
        first_wrong(alloc, &streams(alloc, false, &["flv", "webm"])?, &last)?,
        None
    );
    Ok(())
}

/// An information file of so many formats with both streams.
fn file_of(alloc: Global, count: u32) -> Result<String, Fail> {
    let mut info = String::new(alloc);
    info.push_str("{\"id\": \"x\", \"formats\": [{\"format_id\": \"f\"}")?;
    for number in 1..count {
        write!(info, ", {{\"format_id\": \"f{number}\"}}")?;
    }
    info.push_str("]}")?;
    Ok(info)
}

/// How many choices a selector has, or none where they are too many.
fn count(alloc: Global, info: &str, selector: &str) -> Result<Option<usize>, Fail> {
    let tree = read_tree(alloc, info.as_bytes())?;
    let streams = streams(alloc, true, &[])?;
    let sel = read_sel(alloc, selector)?;
    let spec = read_sort(alloc, &Vec::new(alloc), false, false)?;
    let items = read_items(alloc, &tree)?;
    let Some(item) = items.first() else {
        return Ok(None);
    };
    let order = sort_formats(alloc, &spec, item)?;
    match choose(alloc, &sel, item, &order, &streams) {
        Ok(combos) => Ok(Some(combos.len())),
        Err(ChooseFault::TooMany) => Ok(None),
        Err(fault) => Err(fault.into()),
    }
}

#[test]
fn choices_are_counted(rt: HostRuntime) -> Result<(), Fail> {
    let alloc = rt.alloc();
    let rows = [
        (100, "all+all", Some(10_000)),
        (101, "all+all", None),
        (101, "all+all+7", Some(0)),
        (5_001, "b/(all,all)", Some(1)),
        (5_001, "(all,all)/b", None),
        (5_001, "zz+(all,all)", None),
    ];
    for (formats, selector, wanted) in rows {
        let info = file_of(alloc, formats)?;
        assert_eq!(rt;
            count(alloc, info.as_str(), selector)?,
            wanted,
            "{selector}"
        );
    }
    Ok(())
}

#[test]
fn long_chains_of_filters_take_no_stack(rt: HostRuntime) -> Result<(), Fail> {
    let alloc = rt.alloc();
    let mut selector = String::new(alloc);
    selector.push('b')?;
    for _ in 0..100_000 {
        selector.push_str("[height>700]")?;
    }
    assert_eq!(rt; count(alloc, COMBINED, selector.as_str())?, Some(1));
    Ok(())
}
