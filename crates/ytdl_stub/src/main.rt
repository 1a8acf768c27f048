//! A stand-in for the servers and tools that tests need: serves files, or joins them.
#![tactic(auto)]

mod job;
mod joining;
#[cfg(test)]
mod tests;

use file_server::serve;
use job::{Job, job_of};
use joining::join_files;
use std::env;
use std::io::{self, ErrorKind};
use std::net::TcpListener;
use std::process::ExitCode;

/// Does what the words ask for.
fn run(rt: &HostRuntime) -> io::Result<()> {
    let words: Vec<String> = env::args(rt)?.skip(1).collect(rt.alloc())?;
    match job_of(rt.alloc(), &words)? {
        Some(Job::Serve { folder, turns }) => serve_folder(rt, folder, turns),
        Some(Job::Join(joining)) => join_files(rt, &joining),
        None => Err(io::Error::from(ErrorKind::InvalidInput)),
    }
}

/// Serves a folder over so many connections at a free port, and prints that port first.
fn serve_folder(rt: &HostRuntime, folder: &str, turns: u64) -> io::Result<()> {
    let listener = TcpListener::bind(rt, "127.0.0.1:0")?;
    let port = listener.local_addr()?.port();
    println!(rt; "{port}")?;
    serve(rt, &listener, folder, turns)
}

fn main(rt: HostRuntime) -> ExitCode {
    match run(&rt) {
        Ok(()) => ExitCode::SUCCESS,
        Err(_) => ExitCode::FAILURE,
    }
}
