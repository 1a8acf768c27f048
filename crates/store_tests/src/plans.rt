use plan_record::{
    Line, name_room, plan_text, write_joined, write_pieces, write_promise, write_record,
    write_spare, write_stem,
};
use std::alloc::Global;
use std::test::Fail;
use text_base::Text;

/// A line for each URL, and one without where a text is empty.
fn lines(alloc: Global, urls: &[&str]) -> Result<Vec<Line>, Fail> {
    let mut lines = Vec::new(alloc);
    for url in urls {
        if url.is_empty() {
            lines.push(Line::NoUrl)?;
        } else {
            lines.push(Line::Url(Text::new(alloc, url)?))?;
        }
    }
    Ok(lines)
}

/// The URLs of the pieces of a plan, and its text.
const PLANS: [(&[&str], &str); 2] = [
    (
        &[
            "http://127.0.0.1:8080/a/0.ts",
            "",
            "http://127.0.0.1:8080/a/2.ts?sig=x%20y",
        ],
        "ytdl-plan 1\n3\nu http://127.0.0.1:8080/a/0.ts\nx\nu http://127.0.0.1:8080/a/2.ts?sig=x%20y\n",
    ),
    (&[], "ytdl-plan 1\n0\n"),
];

#[test]
fn a_plan_has_two_lines_and_one_a_piece(rt: HostRuntime) -> Result<(), Fail> {
    for (urls, wanted) in &PLANS {
        let text = plan_text(rt.alloc(), &lines(rt.alloc(), urls)?)?;
        assert_eq!(rt; text.as_str(), *wanted);
    }
    Ok(())
}

#[test]
fn each_name_beside_a_component(rt: HostRuntime) -> Result<(), Fail> {
    let alloc = rt.alloc();
    let component = "clips/Größe.f137.mp4";
    let mut name = name_room(alloc, component)?;
    write_record(&mut name, component);
    assert_eq!(rt; name.as_str(), "clips/Größe.f137.mp4.ytdl");
    write_spare(&mut name, component);
    assert_eq!(rt; name.as_str(), "clips/Größe.f137.mp4.ytdl.new");
    write_joined(&mut name, component);
    assert_eq!(rt; name.as_str(), "clips/Größe.f137.mp4.part");
    write_pieces(&mut name, component);
    assert_eq!(rt; name.as_str(), "clips/Größe.f137.mp4.part-Frag");
    write_stem(&mut name, component, 10);
    assert_eq!(rt; name.as_str(), "clips/Größe.f137.mp4.part-Frag10");
    write_promise(&mut name, component, 0, 18446744073709551615);
    assert_eq!(rt;
        name.as_str(),
        "clips/Größe.f137.mp4.part-Frag0.@18446744073709551615"
    );
    Ok(())
}
