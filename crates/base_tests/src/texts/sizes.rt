use super::numbers::is_printed;
use std::process::Abort;
use text_base::size_value;

/// Texts, each with the size that it is where a plain prefix counts by 1000.
const BY_1000: &str = "
    1.5Ki=1536.0 1G=1000000000 7b=7 2kB=2000 3MiB=3145728 4t=4000000000000 0.000000001=0.000000001 X=none 1X=none
    1i=none 1iB=none 1Bi=none -1=none +1=none .5=none 1.=none 1.K=none 1.0000000000=none 1KK=none 1KBB=none 1e3=none
    1,5=none =none
";

/// Texts, each with the size that it is where a plain prefix counts by 1024.
const BY_1024: &str = "
    1G=1073741824 720=720 8191P=9222246136947933184 00000000000000000000000000000000000000000000000005=5
    9223372036854775807=9223372036854775807 9223372036854775808=none 8192P=none
    999999999999999999.999999999=999999999999999999.999999999 1000000000000000000.0=none
    99999999999999999999999999999999999999999999999999P=none 888.178419700P=999999999999859000.9212928
    888.178419701P=none 0.999999999P=1125899905716724.093157376
";

fn is_size(row: &str, base: u16) -> Option<bool> {
    let (text, size) = row.split_once('=')?;
    Some(is_printed(size_value(text, base), size))
}

fn are_sizes(rt: &impl Abort, rows: &str, base: u16) {
    for row in rows.split_whitespace() {
        assert_eq!(rt; is_size(row, base), Some(true), "{row}");
    }
}

#[test]
fn sizes_have_their_factors_and_their_range(rt: HostRuntime) {
    are_sizes(&rt, BY_1000, 1000);
    are_sizes(&rt, BY_1024, 1024);
    assert!(rt; is_printed(size_value("1KB ", 1000), "none"));
    assert!(rt; is_printed(size_value(" 1", 1000), "none"));
}
