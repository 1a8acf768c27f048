use crate::date_format::DateFormat;
use crate::key::Key;
use std::marker::Model;
use text_base::{Num, Text};

/// Where a value stands: a word, which may be empty, and keys.
#[derive(Debug, Drop)]
pub struct Path {
    word: Text,
    keys: Vec<Key>,
}

impl Model for Path {
    ghost use Rattle.std.specs.Prelude.{List};
    ghost use Rattle.tpl_lang.specs.Paths.{PathView};

    ghost Value = { PathView };

    ghost view = { λ p. record { word = p.word; keys = p.keys.items } };
}

impl Path {
    ghost use Rattle.std.specs.Prelude.{◌≡◌};

    pub(crate) fn new(word: Text, keys: Vec<Key>) -> Path
        ensures { result ≡ record { word = word; keys = keys.items } }
    {
        Path { word, keys }
    }

    pub fn word(&self) -> &str
        ensures { result.now ≡ self.now.word }
    {
        self.word.as_str()
    }

    pub fn keys(&self) -> &[Key]
        ensures { result.now ≡ self.now.keys }
    {
        self.keys.as_slice()
    }
}

/// A number of a template. Contracts see the number.
#[derive(Debug, Drop)]
pub struct Constant {
    num: Num,
}

impl Model for Constant {
    ghost use Rattle.text_base.specs.Number.{Number, number_of};

    ghost Value = { Number };

    ghost view = { λ c. number_of c.num };
}

impl Constant {
    ghost use Rattle.std.specs.Prelude.{◌≡◌};
    ghost use Rattle.text_base.specs.Number.{number_of};

    pub(crate) fn new(num: Num) -> Constant
        ensures { result ≡ number_of num }
    {
        Constant { num }
    }

    pub fn num(&self) -> Num
        ensures { number_of result ≡ self.now }
    {
        self.num
    }
}

#[derive(Clone, Copy, Debug, PartialEq, Eq)]
pub enum Op {
    Add,
    Sub,
    Mul,
}

#[derive(Debug, Drop)]
pub enum Operand {
    /// A number; none where it is out of range, which makes the expression absent.
    Number(Option<Constant>),
    Path(Path),
}

/// An operator with what stands behind it.
#[derive(Debug, Drop)]
pub struct Operation {
    pub op: Op,
    pub operand: Operand,
}

/// What gives a field its value: a path, operations on it from the left, and a date format.
#[derive(Debug, Drop)]
pub struct Expr {
    path: Path,
    operations: Vec<Operation>,
    date_format: Option<DateFormat>,
}

impl Model for Expr {
    ghost use Rattle.tpl_lang.specs.Exprs.{ExprView};

    ghost Value = { ExprView };

    ghost view = { λ e. record { path = e.path; operations = e.operations.items; date_format = e.date_format } };
}

impl Expr {
    ghost use Rattle.std.specs.Prelude.{◌≡◌, IfSome, IfNone, Some, None};

    pub(crate) fn new(
        path: Path,
        operations: Vec<Operation>,
        date_format: Option<DateFormat>,
    ) -> Expr
        ensures { result ≡ record { path = path; operations = operations.items; date_format = date_format } }
    {
        Expr {
            path,
            operations,
            date_format,
        }
    }

    pub fn path(&self) -> &Path
        ensures { result.now ≡ self.now.path }
    {
        &self.path
    }

    pub fn operations(&self) -> &[Operation]
        ensures { result.now ≡ self.now.operations }
    {
        self.operations.as_slice()
    }

    pub fn date_format(&self) -> Option<&DateFormat>
        ensures some { IfSome result (λ f. self.now.date_format ≡ Some f.now) }
        ensures none { IfNone result (self.now.date_format ≡ None) }
    {
        self.date_format.as_ref()
    }
}
