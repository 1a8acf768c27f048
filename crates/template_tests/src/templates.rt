use std::alloc::Global;
use std::test::Fail;
use text_base::num_text;
use tpl_lang::{Field, Key, Op, Operand, Part, Path, TplFault, read_template};

fn fault(rt: &HostRuntime, text: &str) -> Option<TplFault> {
    match read_template(rt.alloc(), text) {
        Ok(_) => None,
        Err(fault) => Some(fault),
    }
}

#[test]
fn faults_stand_at_their_places(rt: HostRuntime) {
    for (text, at) in [
        ("%(id", 4),
        ("%(id)\u{e9}", 5),
        ("%(id).s", 6),
        ("%(id>%", 6),
        ("%(id&{x})s", 5),
        ("%(id&{", 6),
        ("%(id&{:>123456})s", 5),
        ("%(id&})s", 5),
        ("%(a.1:-)s", 7),
        ("%(a.::0)s", 6),
        ("%(a.::-00)s", 6),
        ("%(a.::0", 7),
        ("%(a.-12x)s", 7),
        ("%(a.-)s", 5),
        ("%(a.1234567890123456789:)s", 23),
        ("%(a.1:1234567890123456789)s", 24),
        ("%(n+10.)s", 7),
        ("%(n+)s", 4),
        ("%(n)123456d", 9),
        ("%(n).123456d", 10),
        ("%(a b)s", 3),
        ("%(a.{b,})s", 7),
        ("ab%%%(c]d)s", 7),
    ] {
        assert_eq!(rt; fault(&rt, text), Some(TplFault::Syntax { at }));
    }
    for (text, at) in [
        ("%(id)e", 5),
        ("%(id)", 5),
        ("%(id).", 6),
        ("%(id)5", 6),
        ("%(title)L", 8),
        ("%(title)Le", 8),
        ("%(a|b)c)s", 6),
    ] {
        assert_eq!(rt; fault(&rt, text), Some(TplFault::TypeLetter { at }));
    }
    for (text, at) in [("%(id>%Q)s", 5), ("%(id>%)s", 5), ("x%(a,b>%Y%e)s", 9)] {
        assert_eq!(rt; fault(&rt, text), Some(TplFault::Directive { at }));
    }
}

fn push_number(alloc: Global, out: &mut String, number: Option<i64>) -> Result<(), Fail> {
    if let Some(number) = number {
        out.push_str(format!(in alloc; "{number}")?.as_str())?;
    }
    Ok(())
}

fn push_key(alloc: Global, out: &mut String, key: &Key) -> Result<(), Fail> {
    match key {
        Key::Int { spelling, place } => {
            out.push_str(spelling.as_str())?;
            out.push_str("=")?;
            push_number(alloc, out, Some(*place))?;
        }
        Key::Slice(slice) => {
            push_number(alloc, out, slice.from)?;
            out.push_str(":")?;
            push_number(alloc, out, slice.to)?;
            out.push_str(":")?;
            push_number(alloc, out, slice.step)?;
        }
        Key::Word(word) => {
            out.push_str("'")?;
            out.push_str(word.as_str())?;
        }
        Key::Braces(words) => {
            for word in words.as_slice() {
                out.push_str("{")?;
                out.push_str(word.as_str())?;
            }
        }
    }
    Ok(())
}

fn push_path(alloc: Global, out: &mut String, path: &Path) -> Result<(), Fail> {
    out.push_str(path.word())?;
    for key in path.keys() {
        out.push_str(" .")?;
        push_key(alloc, out, key)?;
    }
    Ok(())
}

fn push_operand(alloc: Global, out: &mut String, operand: &Operand) -> Result<(), Fail> {
    match operand {
        Operand::Number(Some(number)) => {
            out.push_str("#")?;
            out.push_str(num_text(number.num()).as_str())?;
        }
        Operand::Number(None) => out.push_str("#none")?,
        Operand::Path(path) => push_path(alloc, out, path)?,
    }
    Ok(())
}

/// The expressions of a field, each behind a slash, with a `>` for a date format.
fn shown(alloc: Global, field: &Field) -> Result<String, Fail> {
    let mut out = String::new(alloc);
    for expr in field.exprs() {
        out.push_str("/")?;
        push_path(alloc, &mut out, expr.path())?;
        for operation in expr.operations() {
            out.push_str(match operation.op {
                Op::Add => " + ",
                Op::Sub => " - ",
                Op::Mul => " * ",
            })?;
            push_operand(alloc, &mut out, &operation.operand)?;
        }
        if expr.date_format().is_some() {
            out.push_str(" >")?;
        }
    }
    Ok(out)
}

/// What a template's first field shows.
fn first_field(alloc: Global, text: &str) -> Result<String, Fail> {
    let template = read_template(alloc, text)?;
    for part in template.parts() {
        if let Part::Field(field) = part {
            return shown(alloc, field);
        }
    }
    Ok(String::new(alloc))
}

#[test]
fn expressions_are_cut_at_their_tokens(rt: HostRuntime) -> Result<(), Fail> {
    for (text, expected) in [
        (
            "%(release_date>%Y,upload_date>%Y|Unknown)s",
            "/release_date >/upload_date >",
        ),
        ("%()j", "/"),
        ("%(id.3:7)s", "/id .3:7:"),
        ("%(id.6:2:-1)s", "/id .6:2:-1"),
        ("%(a.1:-2)s", "/a .1:-2:"),
        ("%(a.1:-n)s", "/a .1:: - n"),
        ("%(a.1:-2x)s", "/a .1:: - 2x"),
        ("%(a.::-0x)s", "/a .:: - 0x"),
        ("%(formats.-1.width*2)s", "/formats .-1=-1 .'width * #2"),
        ("%(formats.:.format_id)l", "/formats .:: .'format_id"),
        (
            "%(formats.2:.{format_id,height})j",
            "/formats .2:: .{format_id{height",
        ),
        ("%(m.00)s", "/m .00=0"),
        ("%(m.1234567890123456789)s", "/m .'1234567890123456789"),
        ("%(n*2-1)s", "/n * #2 - #1"),
        ("%(n+10.5)s", "/n + #10.5"),
        ("%(n+10.5.3)s", "/n + 10 .5=5 .3=3"),
        ("%(n+10.a)s", "/n + 10 .'a"),
        ("%(n+9223372036854775808)s", "/n + #none"),
    ] {
        assert_eq!(rt; first_field(rt.alloc(), text)?.as_str(), expected);
    }
    Ok(())
}

/// The literals of a template, and a `%` for each field.
fn literals(alloc: Global, text: &str) -> Result<String, Fail> {
    let template = read_template(alloc, text)?;
    let mut out = String::new(alloc);
    for part in template.parts() {
        match part {
            Part::Literal(text) => out.push_str(text.as_str())?,
            Part::Field(_) => out.push_str("()")?,
        }
    }
    Ok(out)
}

#[test]
fn literals_and_lengths_are_told_from_types(rt: HostRuntime) -> Result<(), Fail> {
    for (text, expected) in [
        ("", ""),
        ("%%%", "%%"),
        ("%%(a)s", "%(a)s"),
        ("50% of %(a)s: \u{e9}%", "50% of (): \u{e9}%"),
        ("%(title)long", "()ng"),
        ("%(title)lz", "()z"),
        ("%(title)hello", "()ello"),
        ("%(n)0000012345d", "()"),
        ("%(n)+05d%(n).2f%(n)#x", "()()()"),
        ("%(a|%%)s", "()"),
        ("%(n&{{{}}}&{:^12})s.", "()."),
    ] {
        assert_eq!(rt; literals(rt.alloc(), text)?.as_str(), expected);
    }
    Ok(())
}

#[test]
fn a_hundred_thousand_fields_are_read(rt: HostRuntime) -> Result<(), Fail> {
    let mut text = String::new(rt.alloc());
    for _ in 0..100_000 {
        text.push_str("%(a)s")?;
    }
    let template = read_template(rt.alloc(), text.as_str())?;
    assert_eq!(rt; template.parts().len(), 100_000);
    Ok(())
}
