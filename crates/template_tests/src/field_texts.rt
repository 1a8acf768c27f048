use field_text::*;
use info_tree::read_tree;
use std::alloc::Global;
use std::test::Fail;
use text_base::Num;

/// The number that a JSON value is, or that its text is.
fn number(alloc: Global, json: &str) -> Result<Option<Num>, Fail> {
    Ok(number_in(&read_tree(alloc, json.as_bytes())?))
}

#[test]
fn numbers_and_texts_that_are_some(rt: HostRuntime) -> Result<(), Fail> {
    let alloc = rt.alloc();
    let table = [
        ("12", true),
        ("\"1e3\"", true),
        ("\" 12\"", false),
        ("\"12x\"", false),
        ("\"\"", false),
        ("true", false),
        ("null", false),
    ];
    for (json, is_some) in table {
        assert_eq!(rt; number(alloc, json)?.is_some(), is_some);
    }
    Ok(())
}

#[test]
fn whole_numbers(rt: HostRuntime) -> Result<(), Fail> {
    let alloc = rt.alloc();
    let table = [
        ("3", Radix::Decimal, Sign::Plus, false, 0, 5, "+0003"),
        ("3", Radix::LowerHex, Sign::Minus, true, 0, 0, "0x3"),
        ("-7", Radix::LowerHex, Sign::Minus, true, 0, 6, "-0x007"),
        ("254", Radix::UpperHex, Sign::Minus, false, 4, 0, "00FE"),
        ("8", Radix::Octal, Sign::Space, true, 0, 0, " 0o10"),
        ("-0.5", Radix::Decimal, Sign::Minus, false, 0, 0, "0"),
        ("-0.5", Radix::Decimal, Sign::Plus, false, 0, 0, "+0"),
        ("\"1e3\"", Radix::Decimal, Sign::Minus, false, 0, 0, "1000"),
    ];
    for (json, radix, sign, prefixed, least, width, text) in table {
        let form = IntegerForm {
            radix,
            sign,
            prefixed,
            least,
            width,
        };
        let num = number(alloc, json)?.ok_or("no number")?;
        assert_eq!(rt; integer_text(alloc, form, num)?.as_str(), text);
    }
    Ok(())
}

#[test]
fn numbers_with_decimals(rt: HostRuntime) -> Result<(), Fail> {
    let alloc = rt.alloc();
    let table = [
        ("3", Sign::Minus, 2, 0, "3.00"),
        ("2.5", Sign::Minus, 0, 0, "2"),
        ("3.5", Sign::Minus, 0, 0, "4"),
        ("-0.5", Sign::Minus, 0, 0, "0"),
        ("-1.25", Sign::Plus, 1, 6, "-001.2"),
        ("0.000000001", Sign::Plus, 12, 0, "+0.000000001000"),
    ];
    for (json, sign, places, width, text) in table {
        let form = DecimalForm {
            sign,
            places,
            width,
        };
        let num = number(alloc, json)?.ok_or("no number")?;
        assert_eq!(rt; decimal_text(alloc, form, num)?.as_str(), text);
    }
    Ok(())
}

#[test]
fn days_and_times(rt: HostRuntime) -> Result<(), Fail> {
    let alloc = rt.alloc();
    let table = [
        ("\"20121002\"", 2012, 10, 2, 276, 0, 0),
        ("20121002", 1970, 8, 21, 233, 21, 2),
        ("-0.5", 1969, 12, 31, 365, 23, 59),
        ("253402207201", 9999, 12, 30, 364, 22, 1),
        ("253402300799", 9999, 12, 31, 365, 23, 59),
    ];
    for (json, year, month, day, day_of_year, hour, second) in table {
        let moment = moment_of(&read_tree(alloc, json.as_bytes())?).ok_or("no moment")?;
        assert_eq!(rt; (moment.year, moment.month, moment.day), (year, month, day));
        assert_eq!(rt;
            (moment.day_of_year, moment.hour, moment.second),
            (day_of_year, hour, second)
        );
    }
    let none = [
        "253402300800",
        "\"20120230\"",
        "\"00000101\"",
        "\"2012102\"",
        "null",
    ];
    for json in none {
        assert!(rt; moment_of(&read_tree(alloc, json.as_bytes())?).is_none());
    }
    Ok(())
}

#[test]
fn rooms_in_characters_and_in_bytes(rt: HostRuntime) -> Result<(), Fail> {
    let alloc = rt.alloc();
    let table = [
        ("añb", false, 0, Some(2), "añ", "a"),
        ("ñ", false, 4, None, "   ñ", "  ñ"),
        ("ñ", true, 4, None, "ñ   ", "ñ  "),
        ("ñb", true, 3, Some(2), "ñb ", "ñ "),
    ];
    for (text, left, width, precision, by_chars, by_bytes) in table {
        let frame = Frame {
            left,
            width,
            precision,
        };
        assert_eq!(rt; framed(alloc, text, frame)?.as_str(), by_chars);
        assert_eq!(rt; framed_bytes(alloc, text, frame)?.as_str(), by_bytes);
    }
    Ok(())
}

#[test]
fn lists_and_other_values(rt: HostRuntime) -> Result<(), Fail> {
    let alloc = rt.alloc();
    let table = [
        ("[1, null, \"a b\"]", "1, null, a b", "1, null, 'a b'"),
        ("[]", "", ""),
        ("{\"a\": [true]}", "{\"a\": [true]}", "'{\"a\": [true]}'"),
        ("\"x\"", "x", "x"),
    ];
    for (json, plain, quoted) in table {
        let value = read_tree(alloc, json.as_bytes())?;
        assert_eq!(rt;
            list_text(alloc, Item::Plain, ", ", &value)?.as_str(),
            plain
        );
        assert_eq!(rt;
            list_text(alloc, Item::Quoted, ", ", &value)?.as_str(),
            quoted
        );
    }
    Ok(())
}
