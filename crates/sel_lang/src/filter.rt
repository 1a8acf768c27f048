//! Filters: what a format has to meet.

ghost use Rattle.std.specs.Prelude.{◌≡◌};
ghost use Rattle.sel_lang.specs.Plain.{test_op, test_value};

use text_base::{Num, NumField, Text, TextField};
use text_pattern::Pattern;

/// How a number compares with a filter's value.
#[derive(Clone, Copy, Debug, PartialEq, Eq)]
pub enum NumOp {
    Lt,
    Le,
    Gt,
    Ge,
    Eq,
    Ne,
}

/// How a text compares with a filter's value.
#[derive(Clone, Copy, Debug, PartialEq, Eq)]
pub enum TextOp {
    Eq,
    Prefix,
    Suffix,
    Contains,
    Matches,
}

/// A way to compare, with the value, which is kept as a pattern where it is one.
#[derive(Debug, Drop)]
pub enum TextTest {
    Eq(Text),
    Prefix(Text),
    Suffix(Text),
    Contains(Text),
    Matches(Pattern),
}

impl TextTest {
    /// How the value is compared.
    pub fn op(&self) -> TextOp
        ensures { result ≡ test_op self.now }
    {
        match self {
            TextTest::Eq(_) => TextOp::Eq,
            TextTest::Prefix(_) => TextOp::Prefix,
            TextTest::Suffix(_) => TextOp::Suffix,
            TextTest::Contains(_) => TextOp::Contains,
            TextTest::Matches(_) => TextOp::Matches,
        }
    }

    /// The value's text.
    pub fn value(&self) -> &str
        ensures { result.now ≡ test_value self.now }
    {
        match self {
            TextTest::Eq(text) => text.as_str(),
            TextTest::Prefix(text) => text.as_str(),
            TextTest::Suffix(text) => text.as_str(),
            TextTest::Contains(text) => text.as_str(),
            TextTest::Matches(pattern) => pattern.as_str(),
        }
    }
}

/// What a format has to meet.
#[derive(Debug, Drop)]
pub enum Filter {
    /// A field of numbers.
    Num {
        field: NumField,
        op: NumOp,
        value: Num,
        /// Whether a format passes that lacks the field.
        unknown: bool,
    },
    /// A field of texts.
    Text {
        field: TextField,
        test: TextTest,
        /// Whether it must not hold.
        not: bool,
        /// Whether a format passes that lacks the field.
        unknown: bool,
    },
}
