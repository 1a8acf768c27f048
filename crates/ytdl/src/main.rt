//! Does what the words of the command line ask for, and ends with its status.
#![tactic(auto)]

mod info_file;
mod opener;
mod output;
mod system_opener;
#[cfg(test)]
mod tests;

ghost use Rattle.std.specs.Prelude.{◌≡◌, IfOk, drop, map, string_bytes};
ghost use Rattle.std.specs.Vec.Iter.{into_iter_items};

use info_file::InfoFile;
use output::Output;
use std::alloc::Global;
use std::env::{self, Args};
use std::io::ErrorKind;
use std::process::ExitCode;
use system_opener::SystemOpener;
use text_base::{OutOfMemory, Text};
use ytdl_core::{RunFault, run, status};

/// The status of words that are not UTF-8.
const BAD_WORDS: u8 = 2;

/// Why the system gave no words.
enum ArgumentsFault {
    NotUtf8,
    OutOfMemory,
}

impl From<OutOfMemory> for ArgumentsFault {
    fn from(_: OutOfMemory) -> Self {
        ArgumentsFault::OutOfMemory
    }
}

/// The words of the command line behind the program's name.
fn arguments(rt: &HostRuntime, alloc: Global) -> Result<Vec<Text>, ArgumentsFault> {
    match env::args(rt) {
        Ok(args) => Ok(texts_behind(alloc, args)?),
        Err(fault) if fault.kind() == ErrorKind::OutOfMemory => Err(ArgumentsFault::OutOfMemory),
        Err(_) => Err(ArgumentsFault::NotUtf8),
    }
}

/// All texts but the first.
fn texts_behind(alloc: Global, all: Args) -> Result<Vec<Text>, OutOfMemory>
    ensures { IfOk result (λ texts. texts.items ≡ drop 1 (map string_bytes (into_iter_items all))) }
{
    let mut texts = Vec::new(alloc);
    let mut all = all;
    let _first = all.next();
    for text in all {
        texts.push(Text::from(text))?;
    }
    Ok(texts)
}

fn main(rt: HostRuntime) -> ExitCode {
    let alloc = rt.alloc();
    let words = match arguments(&rt, alloc) {
        Ok(words) => words,
        Err(ArgumentsFault::NotUtf8) => {
            let _ = eprintln!(rt; "ERROR: a word of the command line is not UTF-8");
            return ExitCode::from(BAD_WORDS);
        }
        Err(ArgumentsFault::OutOfMemory) => {
            return ExitCode::from(status(&Err(RunFault::OutOfMemory)));
        }
    };
    let mut info = InfoFile::new(SystemOpener { rt: &rt });
    let mut out = Output::new(rt.stdout());
    let mut err = Output::new(rt.stderr());
    let end = run(alloc, &words, &mut info, &mut out, &mut err);
    ExitCode::from(status(&end))
}
