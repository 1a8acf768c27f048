use info_item::{Combo, Item, Values, View, read_items, view};
use info_tree::{Style, Tree, read_tree, tree_json};
use std::alloc::Global;
use std::test::Fail;
use text_base::{OutOfMemory, Text};

/// These parts as one file.
fn combo(alloc: Global, places: &[usize]) -> Result<Combo, OutOfMemory> {
    let ext = Text::new(alloc, "mkv")?;
    let mut parts = Vec::new(alloc);
    for place in places {
        parts.push(*place)?;
    }
    Ok(Combo { parts, ext })
}

const ASKED: &[u8] = br#"{"id": "x", "url": "u", "formats": [
    {"format_id": 136, "filesize": 10, "url": "HTTPS:v", "resolution": 720},
    {"format_id": "140", "filesize_approx": 5, "url": "http:a"}]}"#;

#[test]
fn a_view_of_two_parts_is_asked(rt: HostRuntime) {
    let alloc = rt.alloc();
    let tree = read_tree(alloc, ASKED).expect(&rt, "a tree");
    let items = read_items(alloc, &tree).expect(&rt, "items");
    let both = combo(alloc, &[0, 1]).expect(&rt, "two parts");
    let item = items.get(0).expect(&rt, "an item");
    let mut view = View::new(alloc, item, &both, 7).expect(&rt, "a view");
    let name = Text::new(alloc, "x.mkv").expect(&rt, "a name");
    view.put(alloc, "filename", Tree::Text(name))
        .expect(&rt, "room");
    for (key, text) in [
        ("format_id", Some(Some("136+140"))),
        ("protocol", Some(Some("https+http"))),
        ("url", None),
        ("resolution", None),
        ("ext", Some(Some("mkv"))),
        ("filename", Some(Some("x.mkv"))),
        ("requested_formats", Some(None)),
    ] {
        let found = view.get(alloc, key).expect(&rt, "memory");
        let told = found.as_ref().map(|found| found.tree().as_text());
        assert_eq!(rt; told, text, "{key}");
    }
}

/// The whole of what is asked, as JSON.
fn told<V: Values>(alloc: Global, values: &V) -> Result<Text, OutOfMemory> {
    let style = Style {
        pretty: false,
        ascii: false,
    };
    tree_json(alloc, &values.whole(alloc)?, style)
}

/// The view of an item where these parts are one file, had whole and asked.
fn shown(alloc: Global, item: &Item<'_>, places: &[usize]) -> Result<(Text, Text), OutOfMemory> {
    let combo = combo(alloc, places)?;
    let whole = told(alloc, &view(alloc, item, &combo, 7)?)?;
    let asked = told(alloc, &View::new(alloc, item, &combo, 7)?)?;
    Ok((whole, asked))
}

const ITEM: &[u8] = br#"{"id": "x", "url": "u", "formats": [
    {"format_id": "v", "acodec": "none", "width": 2, "tbr": 1},
    {"format_id": "a", "vcodec": "none", "abr": 3.5, "tbr": 0.5, "ext": "m4a"}]}"#;

/// The second part over its item, and what both parts share.
const VIEWS: [(&[usize], &str); 2] = [
    (
        &[1],
        r#"{"id": "x", "url": "u", "formats": [{"format_id": "v", "acodec": "none", "width": 2, "tbr": 1}, {"format_id": "a", "vcodec": "none", "abr": 3.5, "tbr": 0.5, "ext": "m4a"}], "format_id": "a", "vcodec": "none", "abr": 3.5, "tbr": 0.5, "ext": "mkv", "autonumber": 7}"#,
    ),
    (
        &[0, 1],
        r#"{"id": "x", "formats": [{"format_id": "v", "acodec": "none", "width": 2, "tbr": 1}, {"format_id": "a", "vcodec": "none", "abr": 3.5, "tbr": 0.5, "ext": "m4a"}], "format_id": "v+a", "width": 2, "abr": 3.5, "tbr": 1.5, "requested_formats": [{"format_id": "v", "acodec": "none", "width": 2, "tbr": 1}, {"format_id": "a", "vcodec": "none", "abr": 3.5, "tbr": 0.5, "ext": "m4a"}], "ext": "mkv", "autonumber": 7}"#,
    ),
];

#[test]
fn views_are_had_whole(rt: HostRuntime) {
    let tree = read_tree(rt.alloc(), ITEM).expect(&rt, "a tree");
    let items = read_items(rt.alloc(), &tree).expect(&rt, "items");
    let item = items.get(0).expect(&rt, "an item");
    for (places, wanted) in &VIEWS {
        let (whole, asked) = shown(rt.alloc(), item, places).expect(&rt, "memory");
        assert_eq!(rt; whole.as_str(), *wanted);
        assert_eq!(rt; asked.as_str(), *wanted);
    }
}
