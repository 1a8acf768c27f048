//! What the words ask for.

/// What is measured.
#[derive(Clone, Copy)]
pub enum Work {
    /// A file grows by so many MiB; at each its bytes are made lasting and it gets another name.
    Append,
    /// So many pieces are begun: a listing, and an empty file for each.
    Open,
    /// The same, and then each file is made lasting and gets its complete name.
    Finish,
}

/// By what it is done.
#[derive(Clone, Copy)]
pub enum Side {
    /// The folder on the disk, and lanes over it.
    Folder,
    /// A loop over the calls of the system.
    Plain,
}

/// What the words ask for: some work, by a side, in a folder, so many times.
#[derive(Drop)]
pub struct Task<'a> {
    pub work: Work,
    pub side: Side,
    pub folder: &'a str,
    pub count: u64,
}

/// What is measured under this word.
fn work_of(word: &str) -> Option<Work> {
    match word {
        "append" => Some(Work::Append),
        "open" => Some(Work::Open),
        "finish" => Some(Work::Finish),
        _ => None,
    }
}

/// Which side this word names.
fn side_of(word: &str) -> Option<Side> {
    match word {
        "folder" => Some(Side::Folder),
        "plain" => Some(Side::Plain),
        _ => None,
    }
}

/// What these words ask for, if anything.
pub fn task_of(words: &[String]) -> Option<Task<'_>> {
    let [work, side, folder, count] = words else {
        return None;
    };
    Some(Task {
        work: work_of(work.as_str())?,
        side: side_of(side.as_str())?,
        folder: folder.as_str(),
        count: count.parse::<u64>().ok()?,
    })
}
