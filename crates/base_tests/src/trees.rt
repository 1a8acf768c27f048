mod printed;

use info_tree::{Tree, TreeFault, read_tree};
use std::alloc::Global;
use std::test::Fail;
use text_base::{Num, NumFault};

fn fault(alloc: Global, bytes: &[u8]) -> Option<TreeFault> {
    read_tree(alloc, bytes).err()
}

const TOO_GREAT: NumFault = NumFault::NumberRange;

/// Texts that are no JSON within the limits, each with its first fault.
const FAULTS: [(&[u8], TreeFault); 20] = [
    (b"", TreeFault::Syntax { at: 0 }),
    (b"{} x", TreeFault::Syntax { at: 3 }),
    (b"[1,]", TreeFault::Syntax { at: 3 }),
    (b" [1", TreeFault::Syntax { at: 3 }),
    (b"{\"a\":1,}", TreeFault::Syntax { at: 7 }),
    (b"{\"a\" 1}", TreeFault::Syntax { at: 5 }),
    (b"\"abc", TreeFault::Syntax { at: 0 }),
    (b"[\"a\\x\"]", TreeFault::Syntax { at: 1 }),
    (b"[\"\\u12g4\"]", TreeFault::Syntax { at: 1 }),
    (b"[\"a\x1f\"]", TreeFault::Syntax { at: 1 }),
    (b"[01]", TreeFault::Syntax { at: 2 }),
    (b"[-]", TreeFault::Syntax { at: 1 }),
    (b"[1.]", TreeFault::Syntax { at: 2 }),
    (b"nul", TreeFault::Syntax { at: 0 }),
    (b"{1e999:2}", TreeFault::Syntax { at: 1 }),
    (
        b"[1e999999]",
        TreeFault::Number {
            at: 1,
            fault: TOO_GREAT,
        },
    ),
    (
        b"9223372036854775808",
        TreeFault::Number {
            at: 0,
            fault: TOO_GREAT,
        },
    ),
    (b"[\"\xe2\x82\"]", TreeFault::NotUtf8 { at: 2 }),
    (b"x\xff", TreeFault::NotUtf8 { at: 1 }),
    (b"\"\xe2\x82", TreeFault::NotUtf8 { at: 1 }),
];

#[test]
fn the_first_fault_answers_with_its_place(rt: HostRuntime) {
    for (bytes, wanted) in &FAULTS {
        assert_eq!(rt; fault(rt.alloc(), bytes), Some(*wanted));
    }
}

#[test]
fn lists_nest_128_deep(rt: HostRuntime) {
    for (levels, wanted) in [
        (128, TreeFault::Syntax { at: 128 }),
        (129, TreeFault::Depth { at: 128 }),
    ] {
        let text = "[".repeat(rt.alloc(), levels).expect(&rt, "memory");
        assert_eq!(rt; fault(rt.alloc(), text.as_bytes()), Some(wanted));
    }
}

#[test]
fn strings_are_decoded(rt: HostRuntime) {
    for (json, text) in [
        ("\"\\ud83d\"", "\u{fffd}"),
        ("\"\\ud83d\\ude00\"", "\u{1f600}"),
        ("\"\\ud83d\\u0041\"", "\u{fffd}A"),
        ("\"\\ud83d\\ud83d\\ude00x\"", "\u{fffd}\u{1f600}x"),
        ("\"\\ude00 \\ud83d-\"", "\u{fffd} \u{fffd}-"),
        (
            "\"a\\\"\\\\\\/\\b\\f\\n\\r\\tz\"",
            "a\"\\/\u{8}\u{c}\n\r\tz",
        ),
        ("\"\\u00DF\\u20ac\"", "\u{df}\u{20ac}"),
        ("\"größer €\"", "größer €"),
    ] {
        let tree = read_tree(rt.alloc(), json.as_bytes()).expect(&rt, "a tree");
        assert_eq!(rt; tree.as_text(), Some(text));
    }
}

#[test]
fn a_long_string_keeps_the_escape_at_its_end(rt: HostRuntime) -> Result<(), Fail> {
    let digits = "0123456789".repeat(rt.alloc(), 200_000)?;
    let text = format!(in rt.alloc(); "\"{digits}\\n\"")?;
    let tree = read_tree(rt.alloc(), text.as_bytes())?;
    let string = tree.as_text().ok_or("no text")?;
    assert_eq!(rt; string.len(), 2_000_001);
    assert!(rt; string.ends_with("89\n"));
    Ok(())
}

/// A map of so many keys, and the seventh of them again.
fn map_of(alloc: Global, count: u32) -> Result<String, Fail> {
    let mut text = String::from_str(alloc, "{")?;
    for key in 0..count {
        text.push_str(format!(in alloc; "\"{key}\":{key},")?.as_str())?;
    }
    text.push_str("\"7\":0}")?;
    Ok(text)
}

#[test]
fn many_keys_are_told_apart(rt: HostRuntime) -> Result<(), Fail> {
    let text = map_of(rt.alloc(), 100_000)?;
    let tree = read_tree(rt.alloc(), text.as_bytes())?;
    for (key, value) in [("7", Some(0)), ("99999", Some(99_999)), ("100000", None)] {
        let found = match tree.get(key) {
            Some(Tree::Num(Num::Int(number))) => Some(*number),
            _ => None,
        };
        assert_eq!(rt; found, value, "{key}");
    }
    Ok(())
}
