use sel_lang::{SelFault, read_sel};

/// Selectors, each with its fault.
const FAULTS: [(&str, Option<SelFault>); 19] = [
    ("[ext=?]", Some(SelFault::Syntax { at: 6 })),
    ("[ext=??]", None),
    ("[quality>1]", Some(SelFault::Field { at: 1 })),
    ("[tbr>-1]", Some(SelFault::Value { at: 5 })),
    ("[height==720]", Some(SelFault::Value { at: 8 })),
    ("[he ight>1]", Some(SelFault::Field { at: 1 })),
    ("[é=1]", Some(SelFault::Syntax { at: 1 })),
    ("[ext! =x]", Some(SelFault::Syntax { at: 4 })),
    ("[height=\"7\"]", Some(SelFault::Syntax { at: 8 })),
    ("[ext=mp\"4]", Some(SelFault::Syntax { at: 7 })),
    ("[ext=\"a\\", Some(SelFault::Syntax { at: 5 })),
    ("[ext=\"\"]", None),
    ("[ext~='a(']", Some(SelFault::Regex { at: 7 })),
    ("[ext~=a(]", Some(SelFault::Regex { at: 6 })),
    ("b v", Some(SelFault::Syntax { at: 2 })),
    ("a)", Some(SelFault::Syntax { at: 1 })),
    ("a,,b", Some(SelFault::Syntax { at: 2 })),
    ("  ", Some(SelFault::Syntax { at: 2 })),
    ("日本/b", None),
];

#[test]
fn each_fault_has_its_place(rt: HostRuntime) {
    for (text, fault) in FAULTS {
        assert_eq!(rt; read_sel(rt.alloc(), text).err(), fault, "{text}");
    }
}

#[test]
fn long_selectors_are_read(rt: HostRuntime) {
    for (part, count, fault) in [
        ("(", 65, Some(SelFault::Depth { at: 64 })),
        ("b/", 100_000, Some(SelFault::Syntax { at: 200_000 })),
        ("[width<5K]", 100_000, None),
    ] {
        let text = part.repeat(rt.alloc(), count).expect(&rt, "memory");
        assert_eq!(rt; read_sel(rt.alloc(), text.as_str()).err(), fault, "{part}");
    }
}
