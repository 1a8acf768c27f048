use info_tree::{Tree, read_tree};
use std::alloc::Global;
use std::test::Fail;
use text_base::Text;
use tpl_eval::{Clean, FillFault, Marks, fill};
use tpl_lang::read_template;

/// The item of docs/TEMPLATES.md, and what else the rows ask for.
const ITEM: &str =
    r#"{"id": "BaW_jenozKc", "title": "yt-dlp test video", "upload_date": "20121002", "n": 3,
    "view_count": 1048576, "formats": [{"format_id": "140"}, {"format_id": "136", "height": 720, "width": 1280},
    {"format_id": "137", "height": 1080}, {"format_id": "22", "height": 720, "width": 1280}],
    "release_date": null, "empty": "", "yes": true, "spelled": "1e3", "spaced": " 12", "minus": -7, "half": -0.5,
    "even": 2.5, "seconds": 20121002, "late": 253402207201, "last": 253402300799, "past": 253402300800,
    "autonumber": 7, "list": [1, null, "a b"], "maps": [{"a": 1}, {}, {"a": null}], "map": {"0": "z", "-1": "q"},
    "euro": "abcdefgh€xyz", "markup": "<b>&'\"", "apart": "e\u0301 ﬁ", "joined": "é ﬁ", "path": "a/b:c?",
    "percent": "50% off"}"#;

/// What stands at a path, operators, dates, alternates, replacements and defaults.
const VALUES: &[(&str, &str)] = &[
    ("", ""),
    ("%%%", "%%"),
    ("%%(a)s", "%(a)s"),
    ("%(title)s-%(id)s", "yt-dlp test video-BaW_jenozKc"),
    ("%(missing)s", "NA"),
    ("%(formats.0.format_id)s", "140"),
    ("%(formats.-1.width)s", "1280"),
    ("%(formats.4.format_id)s", "NA"),
    ("%(id.0)s", "B"),
    ("%(map.0)s", "z"),
    ("%(map.-1)s", "q"),
    ("%(map.00)s", "NA"),
    ("%(id.3:7)s", "_jen"),
    ("%(id.6:2:-1)s", "nej_"),
    ("%(id.1:-2)s", "aW_jenoz"),
    ("%(id.1:-n)s", "NA"),
    ("%(id.::-2)s", "cznjWB"),
    ("%(euro.-4:)s", "€xyz"),
    ("%(formats.:.format_id)l", "140, 136, 137, 22"),
    ("%(maps.:.a)j", "[1, null]"),
    (
        "%(formats.2:.{format_id,height})j",
        "[{\"format_id\": \"137\", \"height\": 1080}, {\"format_id\": \"22\", \"height\": 720}]",
    ),
    (
        "%(.{n,id,n,missing})j",
        "{\"n\": 3, \"id\": \"BaW_jenozKc\"}",
    ),
    ("%(n+10)03d", "013"),
    ("%(n*2-1)s", "5"),
    ("%(n+0.5)s", "3.5"),
    ("%(n+10.5)s", "13.5"),
    ("%(n-formats.1.height)s", "-717"),
    ("%(formats.-1.width*2)s", "2560"),
    ("%(title+1)s", "NA"),
    ("%(n+9223372036854775808)s", "NA"),
    ("%(upload_date>%Y-%m-%d)s", "2012-10-02"),
    ("%(upload_date>%H:%M:%S %j %y%%)s", "00:00:00 276 12%"),
    ("%(seconds>%Y %H:%M:%S)s", "1970 21:10:02"),
    ("%(half>%S)s", "59"),
    ("%(late>%Y-%m-%d %H)s", "9999-12-30 22"),
    ("%(last>%Y)s", "9999"),
    ("%(past>%Y)s", "NA"),
    ("%(title>%Y)s", "NA"),
    ("%(release_date>%Y,upload_date>%Y|Unknown)s", "2012"),
    ("%(release_date>%Y,missing>%Y|Unknown)s", "Unknown"),
    ("%(a,b|)s", ""),
    ("%(missing|none)s", "none"),
    ("%(missing|)s", ""),
    ("%(missing|%%)s", "%%"),
    ("%(missing&x|-)s", "-"),
    ("%(title&<{}>|)s", "<yt-dlp test video>"),
    ("%(n&{{{}}})s", "{3}"),
    ("%(n&{:>3},{:<3},{:^4}.)s", "  3,3  , 3  ."),
    ("%(id&b&c)s", "b&c"),
    ("%(empty|x)s", ""),
    ("%(autonumber)s", "00007"),
    ("%(autonumber)ls", "7"),
    ("%(autonumber|x)s", "7"),
];

/// Types, with flags, widths and precisions.
const TYPES: &[(&str, &str)] = &[
    ("%(title)long", "NAng"),
    ("%(title)lz", "yt-dlp test videoz"),
    ("%(title)hello", "yt-dlp test videoello"),
    ("%(title).6s", "yt-dlp"),
    ("%(id&{:>13}-{}).16s", "  BaW_jenozKc-Ba"),
    ("%(id)13s", "  BaW_jenozKc"),
    ("%(id)-13s|", "BaW_jenozKc  |"),
    ("%(euro)014.9s", "     abcdefgh€"),
    ("%(list)s", "[1, null, \"a b\"]"),
    ("%(yes)s", "true"),
    ("%(n)+05d", "+0003"),
    ("%(n)-05d|", "3    |"),
    ("%(n)05.3d", "00003"),
    ("%(n)+ i", "+3"),
    ("%(n) u", " 3"),
    ("%(n)#x", "0x3"),
    ("%(minus)#06x", "-0x007"),
    ("%(view_count)#o", "0o4000000"),
    ("%(formats.3.format_id)X", "16"),
    ("%(half)d", "0"),
    ("%(half)+d", "+0"),
    ("%(half).0f", "0"),
    ("%(even).0f", "2"),
    ("%(even)f", "2.500000"),
    ("%(minus)08.3f", "-007.000"),
    ("%(n).2F", "3.00"),
    ("%(spelled)d", "1000"),
    ("%(spaced)d", "NA"),
    ("%(yes)d", "NA"),
    ("%(title)d", "NA"),
    ("%(title|zz)d", "zz"),
    ("%(n&)d", "NA"),
    ("%(euro).10B", "abcdefgh"),
    ("%(euro&{}.{}).10B", "abcdefgh"),
    ("%(euro)13.11B", "  abcdefgh€"),
    ("%(formats.0)j", "{\"format_id\": \"140\"}"),
    ("%(formats.0)#j", "{\n    \"format_id\": \"140\"\n}"),
    ("%(euro)j", "\"abcdefgh\\u20acxyz\""),
    ("%(euro)+j", "\"abcdefgh€xyz\""),
    ("%(markup)h", "&lt;b&gt;&amp;&#39;&quot;"),
    ("%(list)l", "1, null, a b"),
    ("%(list)#l", "1\nnull\na b"),
    ("%(n)l", "3"),
    ("%(title)q", "'yt-dlp test video'"),
    ("%(list)#q", "1 null 'a b'"),
    ("%(view_count)D", "1M"),
    ("%(view_count)#D", "1Mi"),
    ("%(view_count)4D", "  1M"),
    ("%(view_count).1D", "1"),
    ("%(path)S", "a⧸b：c？"),
    ("%(path)#S", "a_b_-c"),
    ("%(apart)U", "é ﬁ"),
    ("%(joined)#U", "e\u{301} ﬁ"),
    ("%(apart)+U", "é fi"),
    ("%(joined)#+U", "e\u{301} fi"),
];

/// Names.
const NAMES: &[(&str, &str)] = &[
    ("%(path)s", "a⧸b：c？"),
    ("%(missing|a/b)s", "a/b"),
    ("%(path&{}/x)s/%(n)s", "a⧸b：c？⧸x/3"),
    ("%(list)#l", "1nulla b"),
    ("%(percent)s", "50% off"),
];

/// Names restricted to ASCII.
const RESTRICTED: &[(&str, &str)] = &[
    ("%(path)s", "a_b_-c"),
    ("%(n)3d", "__3"),
    ("%(title)q", "_yt-dlp_test_video_"),
    ("%(missing|a b)s", "a b"),
];

/// What a template prints of an item.
fn filled(alloc: Global, item: &Tree, template: &str, clean: Clean) -> Result<Text, Fail> {
    let marks = Marks {
        na: Text::new(alloc, "NA")?,
    };
    let template = read_template(alloc, template)?;
    Ok(fill(alloc, &template, item, &marks, clean)?)
}

/// The first template of some rows that prints something else than is written behind it.
fn first_wrong<'r>(
    alloc: Global,
    clean: Clean,
    rows: &[(&'r str, &str)],
) -> Result<Option<&'r str>, Fail> {
    let item = read_tree(alloc, ITEM.as_bytes())?;
    for (template, wanted) in rows {
        if filled(alloc, &item, template, clean)?.as_str() != *wanted {
            return Ok(Some(*template));
        }
    }
    Ok(None)
}

#[test]
fn templates_are_filled(rt: HostRuntime) -> Result<(), Fail> {
    for (clean, rows) in [
        (Clean::Plain, VALUES),
        (Clean::Plain, TYPES),
        (Clean::Names, NAMES),
        (Clean::Restricted, RESTRICTED),
    ] {
        assert_eq!(rt; first_wrong(rt.alloc(), clean, rows)?, None);
    }
    Ok(())
}

#[test]
fn a_text_has_16_777_216_bytes_at_most(rt: HostRuntime) -> Result<(), Fail> {
    let alloc = rt.alloc();
    let marks = Marks {
        na: Text::new(alloc, "NA")?,
    };
    let mut text = "x".repeat(alloc, 65_536)?.repeat(alloc, 256)?;
    for end in ["", "x"] {
        text.push_str(end)?;
        let template = read_template(alloc, text.as_str())?;
        let filled = fill(alloc, &template, &Tree::Null, &marks, Clean::Plain);
        if text.len() > 16_777_216 {
            assert!(rt; matches!(filled, Err(FillFault::TooLong)));
        } else {
            assert_eq!(rt; filled?.as_str().len(), 16_777_216);
        }
    }
    Ok(())
}
