//! What each call asks of the system.

ghost use Rattle.std.specs.Prelude.{◌≡◌, ◌≤◌, IfOk, length};

use crate::handles::{Kept, take_kept};
use crate::look::{Standing, is_missing, look, own_file};
use crate::name::{folder_of, is_inside, path_of};
use crate::read_names::read_names;
use crate::unsettled::Unsettled;
use name_listing::{Listing, Names};
use std::alloc::{AllocError, Global};
use std::fs::{Files, OpenFile, OpenOptions};
use std::io::{self, Error, ErrorKind, Read, Seek, SeekFrom, Write};
use text_base::Text;

/// A file that was read, with the place of its next byte.
#[derive(Drop)]
struct Reading<F: Drop> {
    kept: Kept<F>,
    at: u64,
}

/// A folder of the system, or a part of one: what was seen of it, and what may not be lasting yet.
#[derive(Drop)]
pub(crate) struct Disk<'a, R: Files> {
    files: &'a R,
    alloc: Global,
    /// The stem of the part that it is.
    stem: Option<String>,
    listing: Listing,
    unsettled: Unsettled,
    /// Whether parts are out. A listing that is made meanwhile has their names too, and is not kept.
    is_out: bool,
    appended: Option<Kept<R::File>>,
    read: Option<Reading<R::File>>,
}

impl<'a, R: Files> Disk<'a, R> {
    /// The current folder.
    pub(crate) fn new(files: &'a R, alloc: Global) -> Self {
        Disk {
            files,
            alloc,
            stem: None,
            listing: Listing::new(alloc),
            unsettled: Unsettled::new(alloc),
            is_out: false,
            appended: None,
            read: None,
        }
    }

    /// Closes the files that are kept open.
    pub(crate) fn close(&mut self) {
        self.appended = None;
        self.read = None;
    }

    /// Another is to change this name: the next `settle` makes that lasting.
    pub(crate) fn note_change(&mut self, name: &str) -> Result<(), AllocError> {
        if is_inside(name) {
            self.unsettled.note(folder_of(name))?;
        }
        Ok(())
    }

    /// Asks again whether one name stands.
    pub(crate) fn ask_again(&mut self, name: &str) {
        match look(self.files, name) {
            Ok(Standing::Nothing) => self.listing.take_away(folder_of(name), name),
            Ok(_) => self.listing.add(folder_of(name), name),
            Err(_) => self.listing.forget(folder_of(name)),
        }
    }

    /// Takes no name for known from here on.
    pub(crate) fn forget_names(&mut self) {
        self.listing.forget_all();
    }

    /// The names that the system has in a folder; in a part those of its stem alone.
    fn read_folder(&self, folder: &str) -> io::Result<Names> {
        if !folder.is_empty() && !is_inside(folder) {
            return Err(Error::from(ErrorKind::InvalidInput));
        }
        let all = read_names(self.files, self.alloc, folder)?;
        match &self.stem {
            Some(stem) => Ok(all.share(stem.as_str())?),
            None => Ok(all),
        }
    }

    pub(crate) fn names(&mut self, alloc: Global, prefix: &str) -> io::Result<Vec<Text>> {
        self.close();
        let folder = folder_of(prefix);
        if let Some(names) = self.listing.names(folder) {
            return Ok(names.list(alloc, prefix)?);
        }
        let names = self.read_folder(folder)?;
        let list = names.list(alloc, prefix)?;
        if !self.is_out {
            self.listing.learn(folder, names)?;
        }
        Ok(list)
    }

    /// The names of the part with this stem.
    fn share(&mut self, stem: &str) -> io::Result<Names> {
        let folder = folder_of(stem);
        if let Some(names) = self.listing.names(folder) {
            return Ok(names.share(stem)?);
        }
        let names = self.read_folder(folder)?;
        let share = names.share(stem)?;
        self.listing.learn(folder, names)?;
        Ok(share)
    }

    pub(crate) fn size(&mut self, name: &str) -> io::Result<Option<u64>> {
        self.read = None;
        if self.stem.is_some() {
            self.appended = None;
        }
        match look(self.files, name)? {
            Standing::Nothing => Ok(None),
            Standing::File(size) | Standing::Link(size) => Ok(Some(size)),
        }
    }

    pub(crate) fn read_at(&mut self, name: &str, at: u64, buf: &mut [u8]) -> io::Result<usize>
        ensures { IfOk result (λ count. count ≤ length buf.new) }
    {
        let mut file = match self.read.take() {
            Some(reading) if reading.at == at && reading.kept.name.as_str() == name => reading
                .kept
                .file,
            _ => open_to_read(self.files, name, at)?,
        };
        let count = read_once(&mut file, buf)?;
        self.keep_read(name, file, at.saturating_add(count as u64));
        Ok(count)
    }

    /// Keeps a file that was read open; a part keeps none.
    fn keep_read(&mut self, name: &str, file: R::File, at: u64) {
        if self.stem.is_some() {
            self.appended = None;
            return;
        }
        if let Ok(kept) = Kept::new(self.alloc, name, file) {
            self.read = Some(Reading { kept, at });
        }
    }

    pub(crate) fn create(&mut self, name: &str) -> io::Result<()> {
        self.close();
        if let Standing::Nothing = look(self.files, name)? {
            self.unsettled.note(folder_of(name))?;
            let done = make_file(self.files, name, &mut self.unsettled, &mut self.listing);
            self.follow(name, done.is_ok(), true);
            return done;
        }
        Err(Error::from(ErrorKind::AlreadyExists))
    }

    /// After a change of one name: it stands or is gone, or is not known where the call failed.
    fn follow(&mut self, name: &str, is_done: bool, stands: bool) {
        match (is_done, stands) {
            (true, true) => self.listing.add(folder_of(name), name),
            (true, false) => self.listing.take_away(folder_of(name), name),
            (false, _) => self.listing.forget(folder_of(name)),
        }
    }

    pub(crate) fn append(&mut self, name: &str, bytes: &[u8]) -> io::Result<()> {
        let mut file = match take_kept(&mut self.appended, name) {
            Some(file) => file,
            None => {
                own_file(self.files, name)?;
                OpenOptions::new().append(true).open(self.files, name)?
            }
        };
        file.write_all(bytes)?;
        // Without memory for its name the file is opened again at the next call.
        self.appended = Kept::new(self.alloc, name, file).ok();
        Ok(())
    }

    pub(crate) fn cut(&mut self, name: &str, len: u64) -> io::Result<()> {
        self.close();
        if own_file(self.files, name)? <= len {
            return Ok(());
        }
        OpenOptions::new()
            .write(true)
            .open(self.files, name)?
            .set_len(len)
    }

    pub(crate) fn sync(&mut self, name: &str) -> io::Result<()> {
        self.read = None;
        let file = match take_kept(&mut self.appended, name) {
            Some(file) => file,
            None => {
                own_file(self.files, name)?;
                OpenOptions::new().read(true).open(self.files, name)?
            }
        };
        file.sync_data()
    }

    pub(crate) fn rename(&mut self, from: &str, to: &str) -> io::Result<()> {
        self.close();
        own_file(self.files, from)?;
        look(self.files, to)?;
        self.unsettled.note(folder_of(from))?;
        self.unsettled.note(folder_of(to))?;
        make_folders(self.files, to, &mut self.unsettled, &mut self.listing)?;
        let done = self.files.rename(from, to);
        self.follow(from, done.is_ok(), false);
        self.follow(to, done.is_ok(), true);
        done
    }

    pub(crate) fn remove(&mut self, name: &str) -> io::Result<()> {
        self.close();
        if let Standing::Nothing = look(self.files, name)? {
            return Err(Error::from(ErrorKind::NotFound));
        }
        self.unsettled.note(folder_of(name))?;
        let done = self.files.remove_file(name);
        self.follow(name, done.is_ok(), false);
        done
    }

    /// Makes the changes of names in each folder lasting, those aside that are in `done` too.
    pub(crate) fn sync_folders(&self, done: Option<&Disk<'a, R>>) -> io::Result<()> {
        for folder in self.unsettled.folders() {
            if !done.is_some_and(|done| done.unsettled.has(folder.as_str())) {
                sync_folder(self.files, folder.as_str())?;
            }
        }
        Ok(())
    }

    /// All changes of names so far are lasting. What parts that are out have changed is noted here
    /// until they are back.
    pub(crate) fn all_settled(&mut self) {
        if !self.is_out {
            self.unsettled.clear();
        }
    }

    /// A part for each stem, which knows its own names; the whole answers for them no more.
    pub(crate) fn fan(&mut self, alloc: Global, stems: &Vec<Text>) -> io::Result<Vec<Disk<'a, R>>>
        ensures { IfOk result (λ parts. length parts.items ≡ length stems.now.items) }
    {
        self.close();
        let mut parts = Vec::with_capacity(alloc, stems.len())?;
        for stem in stems {
            parts.push(self.part(stem.as_str())?)?;
        }
        for part in &parts {
            if let Some((folder, names)) = part.own_names() {
                self.listing.hand_out(folder, names);
            }
        }
        self.is_out = true;
        Ok(parts)
    }

    /// No part is out from here on.
    pub(crate) fn parts_are_back(&mut self) {
        self.is_out = false;
    }

    /// The part with this stem.
    fn part(&mut self, stem: &str) -> io::Result<Disk<'a, R>> {
        let folder = folder_of(stem);
        self.unsettled.note(folder)?;
        let mut part = Disk::new(self.files, self.alloc);
        part.listing.learn(folder, self.share(stem)?)?;
        part.stem = Some(String::from_str(self.alloc, stem)?);
        Ok(part)
    }

    /// The folder of a part's stem, and the part's names in it where they are known.
    fn own_names(&self) -> Option<(&str, &Names)> {
        let folder = folder_of(self.stem.as_ref()?.as_str());
        Some((folder, self.listing.names(folder)?))
    }

    /// Takes the names of a part that is back, and what may not be lasting in it.
    pub(crate) fn take_back(&mut self, part: &Disk<'a, R>) -> Result<(), AllocError> {
        self.unsettled.note_all(&part.unsettled)?;
        match (part.own_names(), &part.stem) {
            (Some((folder, names)), _) => self.listing.take_in(folder, names),
            (None, Some(stem)) => self.listing.forget(folder_of(stem.as_str())),
            (None, None) => {}
        }
        Ok(())
    }
}

/// Makes the changes of names in a folder lasting. A folder that is missing was never made: no name
/// in it has changed.
fn sync_folder<R: Files>(files: &R, folder: &str) -> io::Result<()> {
    match OpenOptions::new().read(true).open(files, path_of(folder)) {
        Ok(opened) => opened.sync_all(),
        Err(fault) if is_missing(&fault) => Ok(()),
        Err(fault) => Err(fault),
    }
}

/// Opens the file under a name, or the one that a link there leads to, at a place.
fn open_to_read<R: Files>(files: &R, name: &str, at: u64) -> io::Result<R::File> {
    if let Standing::Nothing = look(files, name)? {
        return Err(Error::from(ErrorKind::NotFound));
    }
    let mut file = OpenOptions::new().read(true).open(files, name)?;
    file.seek(SeekFrom::Start(at))?;
    Ok(file)
}

/// Reads once, again where a signal came between.
fn read_once<F: Read>(file: &mut F, buf: &mut [u8]) -> io::Result<usize>
    ensures { IfOk result (λ count. count ≤ length buf.new) }
{
    for _ in 0..u64::MAX {
        match file.read(buf) {
            Err(fault) if fault.kind() == ErrorKind::Interrupted => {}
            done => return done,
        }
    }
    Err(Error::from(ErrorKind::Interrupted))
}

/// Makes an empty file, and the folders on the way that are missing.
fn make_file<R: Files>(
    files: &R,
    name: &str,
    unsettled: &mut Unsettled,
    listing: &mut Listing,
) -> io::Result<()> {
    make_folders(files, name, unsettled, listing)?;
    OpenOptions::new()
        .write(true)
        .create_new(true)
        .open(files, name)?;
    Ok(())
}

/// Makes the folders on the way to a name that are missing, one after another. The folder that each
/// stands in is noted before it is made.
fn make_folders<R: Files>(
    files: &R,
    name: &str,
    unsettled: &mut Unsettled,
    listing: &mut Listing,
) -> io::Result<()> {
    for (at, byte) in name.as_bytes().iter().enumerate() {
        if *byte == b'/' {
            make_folder(files, name.get(..at).unwrap_or(name), unsettled, listing)?;
        }
    }
    Ok(())
}

/// Makes one folder where it is missing.
fn make_folder<R: Files>(
    files: &R,
    folder: &str,
    unsettled: &mut Unsettled,
    listing: &mut Listing,
) -> io::Result<()> {
    match files.metadata(folder) {
        Ok(_) => return Ok(()),
        Err(fault) if is_missing(&fault) => {}
        Err(fault) => return Err(fault),
    }
    unsettled.note(folder_of(folder))?;
    let done = files.create_dir(folder);
    if done.is_ok() {
        listing.add(folder_of(folder), folder);
    } else {
        listing.forget(folder_of(folder));
    }
    done
}
