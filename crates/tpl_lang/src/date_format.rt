use std::marker::Model;
use text_base::Text;

#[derive(Clone, Copy, Debug, PartialEq, Eq)]
pub enum Directive {
    /// `%Y`, four digits.
    Year,
    /// `%m`
    Month,
    /// `%d`
    Day,
    /// `%H`
    Hour,
    /// `%M`
    Minute,
    /// `%S`
    Second,
    /// `%y`, the last two digits of the year.
    ShortYear,
    /// `%j`, the day of the year, three digits.
    YearDay,
    /// `%%`
    Percent,
}

#[derive(Debug, Drop)]
pub enum DatePart {
    Text(Text),
    Directive(Directive),
}

/// How a date is printed. Contracts see the list of the parts.
#[derive(Debug, Drop)]
pub struct DateFormat {
    parts: Vec<DatePart>,
}

impl Model for DateFormat {
    ghost use Rattle.std.specs.Prelude.{List};
    ghost use Rattle.tpl_lang.specs.declared.date_format.DatePart.{DatePart};

    ghost Value = { List DatePart };

    ghost view = { λ f. f.parts.items };
}

impl DateFormat {
    ghost use Rattle.std.specs.Prelude.{◌≡◌};

    pub(crate) fn new(parts: Vec<DatePart>) -> DateFormat
        ensures { result ≡ parts.items }
    {
        DateFormat { parts }
    }

    pub fn parts(&self) -> &[DatePart]
        ensures { result.now ≡ self.now }
    {
        self.parts.as_slice()
    }
}
