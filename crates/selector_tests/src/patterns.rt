use std::test::Fail;
use text_pattern::{Pattern, PatternFault};

#[test]
fn a_pattern_is_found_anywhere(rt: HostRuntime) -> Result<(), Fail> {
    let pattern = Pattern::new(rt.alloc(), "^a[bc]+$")?;
    let mut finder = pattern.finder(rt.alloc())?;
    for (text, found) in [("abcb", true), ("xabc", false)] {
        assert_eq!(rt; finder.finds(text), found, "{text}");
    }
    assert_eq!(rt; pattern.as_str(), "^a[bc]+$");
    Ok(())
}

#[test]
fn another_text_is_no_pattern(rt: HostRuntime) {
    let refused = Pattern::new(rt.alloc(), "a(");
    assert!(rt; matches!(refused, Err(PatternFault::NotPattern)));
}
