use name_text::{
    Form, PathFault, byte_cut, check_path, clean, decimal_suffix, html_escape, normal_form,
    shell_quote,
};
use std::test::Fail;
use text_base::{Dec, Num};

#[test]
fn titles_in_file_names(rt: HostRuntime) {
    for (title, restricted, name) in [
        ("yt-dlp test video", false, "yt-dlp test video"),
        ("yt-dlp test video", true, "yt-dlp_test_video"),
        ("a/b:c?", false, "a⧸b：c？"),
        ("a/b:c?", true, "a_b_-c"),
        ("../..", false, "..⧸.."),
        ("../..", true, ".._.."),
        ("50% \"off\" *now*", false, "50% ＂off＂ ＊now＊"),
        ("50% \"off\" *now*", true, "50%_off__now_"),
        ("<x>|\\\t\u{7f}\u{85}", false, "＜x＞｜⧹\u{85}"),
        ("<x>|\\\t\u{7f}\u{85}", true, "_x____"),
        ("Crème brûlée №5 ﬁ", false, "Crème brûlée №5 ﬁ"),
        ("Crème brûlée №5 ﬁ", true, "Creme_brulee_No5_fi"),
        ("日本のe\u{301}", false, "日本のe\u{301}"),
        ("日本のe\u{301}", true, "___e"),
        ("  3", false, "  3"),
        ("  3", true, "__3"),
        ("", false, ""),
        ("", true, ""),
    ] {
        let cleaned = clean(rt.alloc(), title, restricted).expect(&rt, "memory");
        assert_eq!(rt; cleaned.as_str(), name);
    }
}

#[test]
fn a_long_title_of_marks(rt: HostRuntime) {
    let title = "a:".repeat(rt.alloc(), 1000).expect(&rt, "memory");
    let name = "a：".repeat(rt.alloc(), 1000).expect(&rt, "memory");
    let cleaned = clean(rt.alloc(), title.as_str(), false).expect(&rt, "memory");
    assert_eq!(rt; cleaned.as_str(), name.as_str());
}

#[test]
fn texts_are_words_of_a_shell(rt: HostRuntime) {
    for (text, word) in [
        ("it's", "'it'\"'\"'s'"),
        ("", "''"),
        ("~", "'~'"),
        ("a_b@%+=:,./-0", "a_b@%+=:,./-0"),
        ("yt-dlp test video", "'yt-dlp test video'"),
        ("é", "'é'"),
    ] {
        let quoted = shell_quote(rt.alloc(), text).expect(&rt, "memory");
        assert_eq!(rt; quoted.as_str(), word);
    }
}

#[test]
fn markup_is_escaped(rt: HostRuntime) {
    let escaped = html_escape(rt.alloc(), "<b>&'\" é").expect(&rt, "memory");
    assert_eq!(rt; escaped.as_str(), "&lt;b&gt;&amp;&#39;&quot; é");
}

#[test]
fn numbers_in_short(rt: HostRuntime) {
    for (number, decimal, binary) in [
        (Num::Int(1_500_000), "1M", "1Mi"),
        (Num::Int(999), "999", "999"),
        (Num::Int(1000), "1k", "1000"),
        (Num::Int(1024), "1k", "1Ki"),
        (Num::Int(-1999), "-1k", "-1Ki"),
        (Num::Int(i64::MIN), "-9223P", "-8192Pi"),
        (Num::Dec(Dec { nano: -500_000_000 }), "0", "0"),
        (
            Num::Dec(Dec {
                nano: 999_999_999_999,
            }),
            "999",
            "999",
        ),
        (
            Num::Dec(Dec {
                nano: 1_500_000_000_000,
            }),
            "1k",
            "1Ki",
        ),
    ] {
        let short = decimal_suffix(rt.alloc(), number, 1000).expect(&rt, "memory");
        assert_eq!(rt; short.as_str(), decimal);
        let short = decimal_suffix(rt.alloc(), number, 1024).expect(&rt, "memory");
        assert_eq!(rt; short.as_str(), binary);
    }
}

#[test]
fn fronts_end_between_characters(rt: HostRuntime) {
    for (bytes, front) in [
        (0, ""),
        (8, "abcdefgh"),
        (10, "abcdefgh"),
        (11, "abcdefgh€"),
        (14, "abcdefgh€xyz"),
        (99, "abcdefgh€xyz"),
    ] {
        let cut = byte_cut(rt.alloc(), "abcdefgh€xyz", bytes).expect(&rt, "memory");
        assert_eq!(rt; cut.as_str(), front);
    }
}

#[test]
fn texts_have_their_normal_forms(rt: HostRuntime) {
    for (text, form, wanted) in [
        ("e\u{301} ﬁ", Form::Nfc, "é ﬁ"),
        ("é ﬁ", Form::Nfd, "e\u{301} ﬁ"),
        ("e\u{301} ﬁ", Form::Nfkc, "é fi"),
        ("é ﬁ", Form::Nfkd, "e\u{301} fi"),
    ] {
        let normal = normal_form(rt.alloc(), text, form).expect(&rt, "memory");
        assert_eq!(rt; normal.as_str(), wanted);
    }
}

#[test]
fn paths_and_their_first_faults(rt: HostRuntime) {
    for (path, answer) in [
        ("video.mp4", Ok(())),
        ("a/..b/.c", Ok(())),
        ("", Err(PathFault::Empty)),
        ("a//..", Err(PathFault::Empty)),
        ("a/", Err(PathFault::Empty)),
        ("..", Err(PathFault::DotDot)),
        ("a/./b", Err(PathFault::DotDot)),
        ("/a//b", Err(PathFault::Absolute)),
        ("/x\ty", Err(PathFault::Control)),
        ("a\u{7f}", Err(PathFault::Control)),
    ] {
        assert_eq!(rt; check_path(path), answer);
    }
}

#[test]
fn a_component_has_255_bytes_at_most(rt: HostRuntime) -> Result<(), Fail> {
    let marks = "é".repeat(rt.alloc(), 127)?;
    for (end, answer) in [("x", Ok(())), ("xx", Err(PathFault::Long { component: 1 }))] {
        let path = format!(in rt.alloc(); "dir/{marks}{end}")?;
        assert_eq!(rt; check_path(path.as_str()), answer);
    }
    Ok(())
}
