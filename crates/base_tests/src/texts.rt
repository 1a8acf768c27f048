mod numbers;
mod sizes;

use std::test::Fail;
use text_base::{Text, first_json_special, first_name_special, json_special_32, name_special_32};

#[test]
fn text_keeps_its_bytes(rt: HostRuntime) -> Result<(), Fail> {
    for bytes in ["", "Größe €", "sixteen bytes ok", "seventeen letters"] {
        let text = Text::new(rt.alloc(), bytes)?;
        assert_eq!(rt; text.as_str(), bytes);
        let moved = Text::from(String::from_str(rt.alloc(), bytes)?);
        assert_eq!(rt; moved.as_str(), bytes);
    }
    Ok(())
}

fn both_scans(bytes: &[u8]) -> (usize, usize) {
    (first_json_special(bytes, 0), first_name_special(bytes, 0))
}

#[test]
fn scans_find_each_place(rt: HostRuntime) {
    let mut text = [b'a'; 130];
    for at in 0..130 {
        text[at] = b'"';
        assert_eq!(rt; both_scans(&text), (at, at));
        assert_eq!(rt; both_scans(&text[..at + 1]), (at, at));
        text[at] = b'a';
    }
    assert_eq!(rt; both_scans(&text), (130, 130));
}

#[test]
fn blocks_are_scanned(rt: HostRuntime) {
    assert_eq!(rt; json_special_32(b"a tab, or a quote\t are special \""), 17);
    assert_eq!(rt; name_special_32(b"a percent sign of 90% is special"), 20);
}

fn crosses_threads<T: Send + Sync>(_value: &T) {}

#[test]
fn text_crosses_threads(rt: HostRuntime) -> Result<(), Fail> {
    crosses_threads(&Text::new(rt.alloc(), "text")?);
    Ok(())
}
