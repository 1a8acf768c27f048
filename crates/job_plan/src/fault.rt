//! Why a choice of an item is no job.

use name_text::PathFault;

/// What the family of a job meets.
#[derive(Clone, Copy, Debug, PartialEq, Eq)]
pub enum ClashWith {
    /// The family of the job that is this entry.
    Job(usize),
    /// Itself.
    Own,
    /// The archive, or the name under which it is written anew.
    Archive,
}

/// Why a choice of an item is no job.
#[derive(Clone, Copy, Debug, PartialEq, Eq)]
pub enum JobFault {
    /// Nothing is chosen.
    NoFormat,
    /// The name, a line that is printed or a command is too long.
    Fill,
    /// The name is no path of a file below the folder.
    Path(PathFault),
    /// A file can't have one of the names.
    NameLong,
    /// The names are taken.
    Clash { with: ClashWith },
    /// A part, counted from 0, can't be fetched.
    Pieces { part: usize },
    /// A part of the selector has more than 10,000 choices.
    TooMany,
}
