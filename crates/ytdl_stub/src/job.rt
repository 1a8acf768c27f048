ghost use Rattle.std.specs.Prelude.{◌≡◌, map, IfOk, option_map, string_bytes, bytes_eq, codes};
ghost use Rattle.ytdl_stub.specs.Job.{work, work_of, served, joined, joined_of, joined_to, is_input, is_tool};

use crate::joining::Joining;
use file_server::number;
use std::alloc::{AllocError, Global};

/// What the words ask for.
#[derive(Drop)]
pub enum Job<'a> {
    /// To serve the files below a folder over so many connections.
    Serve { folder: &'a str, turns: u64 },
    /// To join files.
    Join(Joining<'a>),
}

/// What words ask for, where they ask for anything.
pub fn job_of<'a>(alloc: Global, words: &'a [String]) -> Result<Option<Job<'a>>, AllocError>
    ensures { IfOk result (λ job. option_map work_of job ≡ work (map string_bytes words.now)) }
{
    match words {
        [first, rest @ ..] if first.as_str() == "serve" => Ok(serve_job(rest)),
        [first, rest @ ..] if is_tool(first.as_str()) => Ok(joining_of(alloc, rest)?.map(
            Job::Join,
        )),
        _ => Ok(None),
    }
}

/// Whether the words behind this one are a tool's.
fn is_tool(word: &str) -> bool
    ensures { result ≡ is_tool word.now }
{
    word == "tool" || word == "-y"
}

/// A folder and a number of connections.
fn serve_job(words: &[String]) -> Option<Job<'_>>
    ensures { option_map work_of result ≡ served (map string_bytes words.now) }
{
    let [folder, turns] = words else {
        return None;
    };
    let turns = number(turns.as_bytes())?;
    Some(Job::Serve {
        folder: folder.as_str(),
        turns,
    })
}

/// The names behind each `-i`, and the last word, which is none of them.
fn joining_of<'a>(alloc: Global, words: &'a [String]) -> Result<Option<Joining<'a>>, AllocError>
    ensures { IfOk result (λ found. option_map joined_of found ≡ joined (map string_bytes words.now)) }
{
    let mut inputs = Vec::new(alloc);
    let mut rest = words;
    'words: loop {
        match rest {
            [] => return Ok(None),
            [word] => return Ok(joining_to(inputs, word.as_str())),
            [word, name, others @ ..] => if is_input(word.as_str()) {
                inputs.push(name.as_str())?;
                rest = others;
            } else {
                rest = &rest[1..];
            },
        }
    }
}

/// These inputs, and a last word that names none.
fn joining_to<'a>(inputs: Vec<&'a str>, word: &'a str) -> Option<Joining<'a>>
    ensures { option_map joined_of result ≡ joined_to (map (λ name. name.now) inputs.entry.items) word.now }
{
    if is_input(word) {
        return None;
    }
    Some(Joining {
        inputs,
        output: word,
    })
}

/// Whether the next word names an input.
fn is_input(word: &str) -> bool
    ensures { result ≡ is_input word.now }
{
    word == "-i"
}
