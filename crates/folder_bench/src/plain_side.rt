//! The same calls of the system by plain loops over std's files.

use crate::fault::Fault;
use crate::names::{promise, stem};
use crate::{BLOCK, BLOCKS};
use std::alloc::Global;
use std::fs::{self, Files, OpenFile, OpenOptions};
use std::io::{self, Read, Write};

/// Makes a file that is not there.
fn create<R: Files>(files: &R, name: &str) -> io::Result<()> {
    OpenOptions::new()
        .write(true)
        .create_new(true)
        .open(files, name)?;
    Ok(())
}

/// Puts a MiB behind a file's end, makes it lasting, and gives the file another name.
fn append_one<R: Files>(files: &R, block: &[u8], name: &str, next: &str) -> io::Result<()> {
    let mut file = OpenOptions::new().append(true).open(files, name)?;
    for _ in 0..BLOCKS {
        file.write_all(block)?;
    }
    file.sync_data()?;
    drop(file);
    fs::rename(files, name, next)
}

/// Grows a file by so many MiB.
pub fn append<R: Files>(alloc: Global, files: &R, count: u64) -> Result<(), Fault> {
    let block = vec![in alloc; 0; BLOCK]?;
    let mut name = promise(alloc, 0, 0)?;
    create(files, name.as_str())?;
    for done in 0..count {
        let next = promise(alloc, 0, done + 1)?;
        append_one(files, block.as_slice(), name.as_str(), next.as_str())?;
        name = next;
    }
    Ok(())
}

/// Reads the names of the current folder.
fn list<R: Files>(files: &R) -> io::Result<()> {
    let mut names = files.open_dir(".")?;
    let mut buffer = [0u8; 4096];
    for _ in 0..u64::MAX {
        if names.read(&mut buffer)? == 0 {
            break;
        }
    }
    Ok(())
}

/// Lists the folder, and makes an empty file for each piece.
pub fn open<R: Files>(alloc: Global, files: &R, count: u64) -> Result<(), Fault> {
    list(files)?;
    for number in 0..count {
        create(files, promise(alloc, number, 0)?.as_str())?;
    }
    Ok(())
}

/// Makes each piece's file lasting, and gives it its complete name.
pub fn finish<R: Files>(alloc: Global, files: &R, count: u64) -> Result<(), Fault> {
    for number in 0..count {
        let name = promise(alloc, number, 0)?;
        OpenOptions::new()
            .read(true)
            .open(files, name.as_str())?
            .sync_data()?;
        fs::rename(files, name.as_str(), stem(alloc, number)?.as_str())?;
    }
    Ok(())
}
