use crate::asked::{Asked, PLAIN, Told, told_of};
use crate::infos::VIDEO;
use std::alloc::Global;
use std::fmt::Write;
use std::test::Fail;

/// This, so many times that, and an end.
fn repeated(
    alloc: Global,
    begin: &str,
    part: &str,
    count: usize,
    end: &str,
) -> Result<String, Fail> {
    let mut text = String::new(alloc);
    text.push_str(begin)?;
    for _ in 0..count {
        text.push_str(part)?;
    }
    text.push_str(end)?;
    Ok(text)
}

/// What a name begins with, how often, what stands behind it, and what is told of its job.
const LENGTHS: [(&str, usize, &str, &str); 4] = [
    ("a", 221, ".%(ext)s", "<http://127.0.0.1:8080/22>"),
    ("a", 222, ".%(ext)s", "NameLong"),
    ("d", 255, "/a.%(ext)s", "<http://127.0.0.1:8080/22>"),
    ("d", 256, "/a.%(ext)s", "Path(Long { component: 0 })"),
];

#[test]
fn names_have_a_length(rt: HostRuntime) -> Result<(), Fail> {
    let alloc = rt.alloc();
    for (part, count, end, wanted) in &LENGTHS {
        let template = repeated(alloc, "", part, *count, end)?;
        let asked = Asked {
            selector: "22",
            template: template.as_str(),
            ..PLAIN
        };
        let line = told_of(&rt, alloc, VIDEO, &asked, Told::Pieces)?;
        assert_eq!(rt; line.as_str(), *wanted, "{part} {count}");
    }
    Ok(())
}

/// A name that is no path below the folder, and a line that is twice a long text.
const PRINTED_TWICE: Asked<'static> = Asked {
    template: "%(title)s",
    prints: &["%(long)s%(long)s"],
    ..PLAIN
};

/// What an information file begins with, up to the long text in it.
const BEFORE: &str = r#"{"id": "x", "title": "..", "long": ""#;

/// How it goes on behind that, and what is told of its job.
const FAULTS: [(&str, &str); 2] = [
    (r#"", "url": "u"}"#, "Fill"),
    (
        r#"", "formats": [{"format_id": "f"}]}"#,
        "Pieces { part: 0 }",
    ),
];

#[test]
fn the_first_fault_counts(rt: HostRuntime) -> Result<(), Fail> {
    let alloc = rt.alloc();
    for (end, wanted) in &FAULTS {
        let info = repeated(alloc, BEFORE, "abcdefgh", 1_048_577, end)?;
        let line = told_of(&rt, alloc, info.as_str(), &PRINTED_TWICE, Told::Printed)?;
        assert_eq!(rt; line.as_str(), *wanted);
    }
    Ok(())
}

/// An information file of one format with so many fragments.
fn in_fragments(alloc: Global, count: usize) -> Result<String, Fail> {
    let mut info = String::new(alloc);
    info.push_str(r#"{"id": "x", "title": "t", "fragments": [{"url": "u"}"#)?;
    for number in 1..count {
        write!(info, ", {{\"url\": \"{number}\"}}")?;
    }
    info.push_str("]}")?;
    Ok(info)
}

/// An information file of so many formats.
fn in_formats(alloc: Global, count: usize) -> Result<String, Fail> {
    let mut info = String::new(alloc);
    info.push_str(r#"{"id": "x", "title": "t", "formats": [{"format_id": "f", "url": "u"}"#)?;
    for number in 1..count {
        write!(info, ", {{\"format_id\": \"{number}\", \"url\": \"u\"}}")?;
    }
    info.push_str("]}")?;
    Ok(info)
}

#[test]
fn there_are_too_many(rt: HostRuntime) -> Result<(), Fail> {
    let alloc = rt.alloc();
    let fragments = in_fragments(alloc, 20_001)?;
    let line = told_of(&rt, alloc, fragments.as_str(), &PLAIN, Told::Pieces)?;
    assert_eq!(rt; line.as_str(), "Pieces { part: 0 }");
    let allowed = in_fragments(alloc, 20_000)?;
    let line = told_of(&rt, alloc, allowed.as_str(), &PLAIN, Told::Names)?;
    assert_eq!(rt; line.as_str(), "t [x].unknown_video > t [x].unknown_video");
    let formats = in_formats(alloc, 101)?;
    let asked = Asked {
        selector: "all+all",
        ..PLAIN
    };
    let line = told_of(&rt, alloc, formats.as_str(), &asked, Told::Names)?;
    assert_eq!(rt; line.as_str(), "TooMany");
    Ok(())
}
