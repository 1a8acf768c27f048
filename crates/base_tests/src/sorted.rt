use fmt_sort::{SortFault, SortSpec, SortWords, read_sort, sort_formats};
use info_item::{Item, read_items};
use info_tree::read_tree;
use std::alloc::Global;
use std::test::Fail;
use text_base::Text;

fn words(alloc: Global, texts: &[&str]) -> Result<Vec<Text>, Fail> {
    let mut words = Vec::new(alloc);
    for text in texts {
        words.push(Text::new(alloc, text)?)?;
    }
    Ok(words)
}

/// The ids of an item's formats from best to worst, with a space behind each.
fn ids(alloc: Global, spec: &SortSpec, item: &Item<'_>) -> Result<String, Fail> {
    let mut ids = String::new(alloc);
    for place in sort_formats(alloc, spec, item)? {
        if let Some(format) = item.formats().get(place) {
            ids.push_str(format.id())?;
            ids.push_str(" ")?;
        }
    }
    Ok(ids)
}

/// The formats of an information file in the order that one sort word asks for, or none.
fn sorted(alloc: Global, info: &str, texts: &[&str]) -> Result<String, Fail> {
    let spec = read_sort(alloc, &words(alloc, texts)?, false, false)?;
    let tree = read_tree(alloc, info.as_bytes())?;
    let items = read_items(alloc, &tree)?;
    ids(alloc, &spec, items.get(0).ok_or("no item")?)
}

const THREE: &str = r#"{"id": "x", "formats": [
    {"format_id": "a", "width": 854, "height": 480},
    {"format_id": "b", "width": 1920, "height": 1080},
    {"format_id": "c", "width": 3840, "height": 2160}]}"#;

const TWO: &str = r#"{"id": "x", "formats": [
    {"format_id": "b", "width": 1920, "height": 1080},
    {"format_id": "c", "width": 3840, "height": 2160}]}"#;

const CODECS: &str = r#"{"id": "x", "formats": [
    {"format_id": "1", "vcodec": "theora"}, {"format_id": "2", "vcodec": "h263"},
    {"format_id": "3", "vcodec": "vp8"}, {"format_id": "4", "vcodec": "av01.0.05M.08"},
    {"format_id": "5", "vcodec": "vp9.2"}, {"format_id": "6", "vcodec": "vp9"},
    {"format_id": "7", "vcodec": "hev1.1.6"}, {"format_id": "8", "vcodec": "AVC1.64001F"}]}"#;

const IDS: &str = r#"{"id": "x", "formats": [{"format_id": "9"}, {"format_id": "10"}]}"#;

/// Information files, sort words, and the ids from best to worst.
const ORDERS: [(&str, &[&str], &str); 8] = [
    (THREE, &["res:720"], "a b c "),
    (TWO, &["res:720"], "b c "),
    (THREE, &[], "c b a "),
    (THREE, &["+res"], "a b c "),
    (THREE, &["res~1000"], "b a c "),
    (CODECS, &["+codec:avc:m4a"], "8 7 6 5 4 3 2 1 "),
    (CODECS, &[], "4 5 6 7 8 3 2 1 "),
    (IDS, &["fps"], "9 10 "),
];

#[test]
fn formats_are_sorted(rt: HostRuntime) -> Result<(), Fail> {
    for (info, texts, order) in &ORDERS {
        assert_eq!(rt; sorted(rt.alloc(), info, texts)?.as_str(), *order);
    }
    Ok(())
}

/// Sort words, each with its fault.
const FAULTS: [(&[&str], Option<SortFault>); 20] = [
    (&["speed"], Some(SortFault::Field { piece: 0 })),
    (&["res:x"], Some(SortFault::Limit { piece: 0 })),
    (
        &["res,fps", "br, speed , x"],
        Some(SortFault::Field { piece: 3 }),
    ),
    (&["res:x", "speed"], Some(SortFault::Limit { piece: 0 })),
    (&[""], Some(SortFault::Field { piece: 0 })),
    (&["res,"], Some(SortFault::Field { piece: 1 })),
    (&["+ res"], Some(SortFault::Field { piece: 0 })),
    (&["res~"], Some(SortFault::Limit { piece: 0 })),
    (&["res:1:2"], Some(SortFault::Limit { piece: 0 })),
    (&["res~1:2"], Some(SortFault::Limit { piece: 0 })),
    (&["vcodec~avc:x"], Some(SortFault::Limit { piece: 0 })),
    (&["codec:a:b:c"], Some(SortFault::Limit { piece: 0 })),
    (&["codec~"], Some(SortFault::Limit { piece: 0 })),
    (&["codec~:"], Some(SortFault::Limit { piece: 0 })),
    (&["codec~:m4a"], None),
    (&["id:x"], Some(SortFault::Limit { piece: 0 })),
    (&["id~"], Some(SortFault::Limit { piece: 0 })),
    (&["id:"], None),
    (&[" +res:720 , ext:mp4:m4a,vcodec:avc1,size~1.5Mi"], None),
    (&["RES"], Some(SortFault::Field { piece: 0 })),
];

#[test]
fn the_first_faulty_piece_answers(rt: HostRuntime) -> Result<(), Fail> {
    for (texts, fault) in &FAULTS {
        let words = words(rt.alloc(), texts)?;
        assert_eq!(rt; read_sort(rt.alloc(), &words, true, true).err(), *fault);
    }
    Ok(())
}

/// The names of a specification's fields, with a space behind each.
fn names(alloc: Global, spec: &SortSpec) -> Result<String, Fail> {
    let mut names = String::new(alloc);
    for field in &spec.fields {
        names.push_str(field.key.name())?;
        names.push_str(" ")?;
    }
    Ok(names)
}

/// The names of the fields that words ask for.
fn asked(alloc: Global, texts: &[&str], force: bool) -> Result<String, Fail> {
    let spec = read_sort(alloc, &words(alloc, texts)?, force, false)?;
    names(alloc, &spec)
}

#[test]
fn fields_have_their_order(rt: HostRuntime) -> Result<(), Fail> {
    for (force, order) in [
        (
            false,
            "hasvid ie_pref id tbr fps lang quality res hdr vcodec channels acodec size br asr proto vext aext hasaud source ",
        ),
        (
            true,
            "id tbr fps hasvid ie_pref lang quality res hdr vcodec channels acodec size br asr proto vext aext hasaud source ",
        ),
    ] {
        let names = asked(rt.alloc(), &["tbr,fps", "id,tbr"], force)?;
        assert_eq!(rt; names.as_str(), order);
    }
    Ok(())
}

#[test]
fn words_are_read_one_by_one(rt: HostRuntime) -> Result<(), Fail> {
    let mut words = SortWords::new(rt.alloc());
    words.read(rt.alloc(), "res:720,codec")?;
    let fault = Some(SortFault::Field { piece: 3 });
    assert_eq!(rt; words.read(rt.alloc(), "fps,foo").err(), fault);
    words.read(rt.alloc(), "tbr")?;
    let spec = words.spec(rt.alloc(), true, false)?;
    let names = names(rt.alloc(), &spec)?;
    assert!(rt; names.starts_with("tbr res vcodec acodec hasvid "));
    Ok(())
}
