mod views;

use info_item::{Item, ItemFault, read_items};
use info_tree::read_tree;
use std::process::Abort;
use text_base::TextField;

/// The keys of a format: its id, its extension, its protocol, and whether it has video and audio.
type Keys = (&'static str, &'static str, Option<&'static str>, bool, bool);

/// An item has this line, and formats with these keys.
fn tells(rt: &impl Abort, item: &Item<'_>, line: &str, formats: &[Keys]) {
    assert_eq!(rt; item.line(), line);
    assert_eq!(rt; item.formats().len(), formats.len());
    for (format, keys) in item.formats().iter().zip(formats) {
        assert_eq!(rt; (format.id(), format.ext()), (keys.0, keys.1));
        assert_eq!(rt; format.text(TextField::Protocol), keys.2);
        assert_eq!(rt; (format.has_video(), format.has_audio()), (keys.3, keys.4));
    }
}

/// Information files of one item, its line, and the keys of its formats.
const ITEMS: [(&[u8], &str, &[Keys]); 2] = [
    (
        br#"{"id": "BaW_jenozKc", "extractor_key": "Youtube", "formats": [
            {"format_id": "140", "ext": "m4a", "vcodec": "none", "url": "HTTPS://example.com/140"},
            {"format_id": 136, "acodec": "none", "protocol": "m3u8_native", "width": 1280},
            {"format_id": "22", "protocol": null, "url": "https://example.com/22"}]}"#,
        "youtube BaW_jenozKc",
        &[
            ("140", "m4a", Some("https"), false, true),
            ("136", "unknown_video", Some("m3u8_native"), true, false),
            ("22", "unknown_video", None, true, true),
        ],
    ),
    (
        br#"{"id": "x ", "extractor_key": "a b", "formats": [], "url": "file"}"#,
        "generic x",
        &[("0", "unknown_video", None, true, true)],
    ),
];

#[test]
fn items_and_formats_tell_their_keys(rt: HostRuntime) {
    for (info, line, formats) in &ITEMS {
        let tree = read_tree(rt.alloc(), info).expect(&rt, "a tree");
        let items = read_items(rt.alloc(), &tree).expect(&rt, "items");
        tells(&rt, items.get(0).expect(&rt, "an item"), line, formats);
    }
}

/// Information files, each with its fault.
const FAULTS: [(&[u8], Option<ItemFault>); 9] = [
    (b"[]", None),
    (b"[3]", Some(ItemFault::NotItem { k: 0 })),
    (
        br#"[{"id": 5, "url": ""}, "x", {}]"#,
        Some(ItemFault::NotItem { k: 1 }),
    ),
    (
        br#"[{"id": 5, "url": ""}, {"id": ""}, 3]"#,
        Some(ItemFault::NoId { k: 1 }),
    ),
    (
        br#"[{"id": 5, "url": ""}, {"id": "a\u007f"}, 3]"#,
        Some(ItemFault::NoId { k: 1 }),
    ),
    (
        br#"[{"id": 5, "url": ""}, {"id": "x"}, 3]"#,
        Some(ItemFault::NoFormats { k: 1 }),
    ),
    (
        br#"[{"id": 5, "url": ""}, {"id": "x", "formats": [{"format_id": 22}, {"format_id": "22"}]}]"#,
        Some(ItemFault::FormatId { k: 1, j: 1 }),
    ),
    (
        br#"{"id": 5, "formats": [{"format_id": 22}, 3]}"#,
        Some(ItemFault::FormatId { k: 0, j: 1 }),
    ),
    (
        br#"{"id": 5, "url": "", "format_id": null}"#,
        Some(ItemFault::FormatId { k: 0, j: 0 }),
    ),
];

#[test]
fn the_first_faulty_item_answers(rt: HostRuntime) {
    for (info, fault) in &FAULTS {
        let tree = read_tree(rt.alloc(), info).expect(&rt, "a tree");
        assert_eq!(rt; read_items(rt.alloc(), &tree).err(), *fault);
    }
}
