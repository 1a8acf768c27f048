use crate::choosing::{ChoosingFlag, ChoosingValue};
use crate::fetching::{FetchingFlag, FetchingValue};
use crate::naming::{NamingFlag, NamingValue};
use crate::showing::{ShowingFlag, ShowingValue};
use crate::source::SourceValue;
use crate::tools::{ToolsFlag, ToolsValue};

/// An option without a value, by its group.
#[derive(Clone, Copy, Debug, PartialEq, Eq)]
pub enum Flag {
    Choosing(ChoosingFlag),
    Naming(NamingFlag),
    Showing(ShowingFlag),
    Fetching(FetchingFlag),
    Tools(ToolsFlag),
}

/// An option with a value, by its group.
#[derive(Clone, Copy, Debug, PartialEq, Eq)]
pub enum Valued {
    Source(SourceValue),
    Choosing(ChoosingValue),
    Naming(NamingValue),
    Showing(ShowingValue),
    Fetching(FetchingValue),
    Tools(ToolsValue),
}

/// What an option is for.
#[derive(Clone, Copy, Debug, PartialEq, Eq)]
pub enum Meaning {
    Flag(Flag),
    Value(Valued),
}
