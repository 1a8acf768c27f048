use std::alloc::Global;
use std::cmp::Ordering;
use std::test::Fail;
use text_base::{Num, NumFault, num_add, num_cmp, num_mul, num_sub, num_text, read_num};

/// Texts, each with the number at its front as it is printed and the place behind it, or with its fault.
const READ: &str = "
    0=0@1
    -0=0@2
    7,=7@1
    01=0@1
    9223372036854775807=9223372036854775807@19
    -9223372036854775808=-9223372036854775808@20
    12.e1=12@2
    1e+=1@1
    0.5=0.5@3
    -0.0=0.0@4
    0.0000000005=0.0@12
    0.0000000015=0.000000002@12
    0.0000000025=0.000000002@12
    -0.0000000015=-0.000000002@13
    0.00000000050000000000000000000000000000001=0.000000001@43
    0.9999999995=1.0@12
    1e17=100000000000000000.0@4
    999999999999999999.9999999994=999999999999999999.999999999@29
    1e-10=0.0@5
    29.97=29.97@5
    24.0=24.0@4
    0e9999999999999999999999999999999999999999999999999999999999999=0.0@63
    0.0e-99999999999999999999999999999999999999999999999999999999999=0.0@64
    1e-999999999999999999999999999999999999999999999999999999999999=0.0@63
    1E+000000000000000000000000000000000000000000000000000000000002=100.0@63
    0.00000000000000000000000000000000000000000000000000000000000001=0.0@64
    1.00000000000000000000000000000000000000000000000000000000000000=1.0@64
    1e00000000000000000000000000000000000000000000000000000000000005=100000.0@64
    -999999999999999999.999999999=-999999999999999999.999999999@29
    0.100000001=0.100000001@11
    9223372036854775808=NumberRange
    -9223372036854775809=NumberRange
    1e18=NumberRange
    999999999999999999.9999999995=NumberRange
    999999999999999999999999999999999999e-18=NumberRange
    1e9999999999999999999999999999999999999999999999999999999999999=NumberRange
    1111111111111111111111111111111111111111111111111111111111111111=NumberRange
    1.000000000000000000000000000000000000000000000000000000000000000=NumberLong
    11111111111111111111111111111111111111111111111111111111111111111=NumberLong
    =NotNumber
    -=NotNumber
    .5=NotNumber
    +1=NotNumber
";

/// What stands at a place of a text: a number as it is printed with the place behind it, or a fault.
fn read(alloc: Global, found: Result<(Num, usize), NumFault>) -> Result<String, Fail> {
    Ok(match found {
        Ok((number, end)) => format!(in alloc; "{}@{end}", num_text(number).as_str())?,
        Err(fault) => format!(in alloc; "{fault:?}")?,
    })
}

#[test]
fn numbers_are_read_and_printed(rt: HostRuntime) -> Result<(), Fail> {
    for row in READ.split_whitespace() {
        let (text, wanted) = row.split_once('=').ok_or("no row")?;
        let found = read(rt.alloc(), read_num(text.as_bytes(), 0))?;
        assert_eq!(rt; found.as_str(), wanted, "{text}");
    }
    let inside = read(rt.alloc(), read_num(b"[1,-2.5]", 3))?;
    assert_eq!(rt; inside.as_str(), "-2.5@7");
    Ok(())
}

fn number(text: &str) -> Option<Num> {
    read_num(text.as_bytes(), 0).ok().map(|(number, _)| number)
}

/// Whether a number is printed so, or is none where `none` is wanted.
pub fn is_printed(number: Option<Num>, wanted: &str) -> bool {
    match number {
        Some(number) => num_text(number).as_str() == wanted,
        None => wanted == "none",
    }
}

/// Two numbers, and their sum, their difference and their product.
const RESULTS: &str = "
    9223372036854775807,1=none,9223372036854775806,9223372036854775807
    -9223372036854775808,1=-9223372036854775807,none,-9223372036854775808
    -9223372036854775808,-1=none,-9223372036854775807,none
    1000000000000000000,1.0=none,999999999999999999.0,none
    9223372036854775807,0.1=none,none,922337203685477580.7
    9223372036854775807,-999999999999999999.0=none,none,none
    -0.5,0.5=0.0,-1.0,-0.25
    0.000000001,0.5=0.500000001,-0.499999999,0.0
    0.000000003,0.5=0.500000003,-0.499999997,0.000000002
    -0.000000001,0.5=0.499999999,-0.500000001,0.0
    0.000000003,-0.500000001=-0.499999998,0.500000004,-0.000000002
    999999999999999999.9,0.1=none,999999999999999999.8,99999999999999999.99
    999999999.999999999,999999999.999999999=1999999999.999999998,0.0,999999999999999998.0
    1000000000.5,1000000000.0=2000000000.5,0.5,none
    999999999999999999.999999999,1.0=none,999999999999999998.999999999,999999999999999999.999999999
    999999999999999999.999999999,0.000000001=none,999999999999999999.999999998,1000000000.0
";

fn calculates(row: &str) -> Option<bool> {
    let (left, rest) = row.split_once(',')?;
    let (right, rest) = rest.split_once('=')?;
    let (sum, rest) = rest.split_once(',')?;
    let (difference, product) = rest.split_once(',')?;
    let (left, right) = (number(left)?, number(right)?);
    Some(
        is_printed(num_add(left, right), sum)
            && is_printed(num_sub(left, right), difference)
            && is_printed(num_mul(left, right), product),
    )
}

#[test]
fn numbers_are_calculated(rt: HostRuntime) {
    for row in RESULTS.split_whitespace() {
        assert_eq!(rt; calculates(row), Some(true), "{row}");
    }
}

fn compares(left: &str, right: &str, order: Ordering) -> bool {
    match (number(left), number(right)) {
        (Some(left), Some(right)) => num_cmp(left, right) == order,
        _ => false,
    }
}

#[test]
fn values_are_compared(rt: HostRuntime) {
    for (left, right, order) in [
        ("1", "1.0", Ordering::Equal),
        ("1000000000", "1.0", Ordering::Greater),
        ("-3", "-2.999999999", Ordering::Less),
        (
            "9223372036854775807",
            "999999999999999999.0",
            Ordering::Greater,
        ),
        ("0", "-0.0", Ordering::Equal),
        ("0.1", "0", Ordering::Greater),
    ] {
        assert!(rt; compares(left, right, order), "{left} and {right}");
    }
}
