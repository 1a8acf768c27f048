ghost use Rattle.std.specs.Prelude.{◌≡◌, ◌≤◌, ◌++◌, IfOk, unwrap_or, length, min, map, take, drop};
ghost use Rattle.folder_base.specs.Least.{least};

use std::alloc::{AllocError, Global};

/// A file in memory.
#[derive(Drop)]
pub(crate) struct Stored {
    pub(crate) bytes: Vec<u8>,
    /// How many bytes at its front are lasting, where it has changed since its last sync.
    pub(crate) sure: Option<usize>,
    ghost in_bytes: { unwrap_or sure 0 ≤ length bytes.items },
}

impl Stored {
    ghost use Rattle.std.specs.Prelude.{OnOk, OnErr};
    ghost use Rattle.folder_base.specs.Disk.{longer, shorter, firm, empty_file, lasting_file};
    ghost use Rattle.folder_base.specs.Names.{ReadsAt};
    ghost use Rattle.folder_base.specs.Stop.{filled};
    ghost use Rattle.folder_base.specs.Stored.{file_of};

    pub(crate) fn empty(alloc: Global) -> Stored
        ensures { file_of result ≡ empty_file }
    {
        Stored {
            bytes: Vec::new(alloc),
            sure: None,
        }
    }

    /// A file of lasting bytes.
    pub(crate) fn lasting(alloc: Global, bytes: &[u8]) -> Result<Stored, AllocError>
        ensures { IfOk result (λ file. file_of file ≡ lasting_file bytes.now) }
    {
        Ok(Stored {
            bytes: bytes.to_vec(alloc)?,
            sure: None,
        })
    }

    pub(crate) fn copy(&self, alloc: Global) -> Result<Stored, AllocError>
        ensures { IfOk result (λ copy. file_of copy ≡ file_of self.now) }
    {
        Ok(Stored {
            bytes: self.bytes.as_slice().to_vec(alloc)?,
            sure: self.sure,
        })
    }

    /// Its bytes, those that are not lasting being `fill`.
    pub(crate) fn filled(&self, alloc: Global, fill: u8) -> Result<Vec<u8>, AllocError>
        ensures { IfOk result (λ bytes. bytes.items ≡ filled fill (file_of self.now)) }
    {
        match self.sure {
            Some(sure) => filled_behind(alloc, &self.bytes, sure, fill),
            None => self.bytes.as_slice().to_vec(alloc),
        }
    }

    /// Reads its bytes from `at` on, as many as go into the buffer.
    pub(crate) fn read_at(&self, at: u64, buf: &mut [u8]) -> usize
        ensures { ReadsAt self.now.bytes.items at buf.new result }
    {
        let Ok(at) = usize::try_from(at) else {
            return 0;
        };
        if at >= self.bytes.len() {
            return 0;
        }
        copy_front(&self.bytes[at..], buf)
    }

    /// Puts bytes behind its end.
    pub(crate) fn extend(&mut self, bytes: &[u8]) -> Result<(), AllocError>
        ensures ok { OnOk result (file_of self.new ≡ longer bytes.now (file_of self.old)) }
        ensures err { OnErr result (file_of self.new ≡ file_of self.old) }
    {
        let had = self.bytes.len();
        self.bytes.extend_from_slice(bytes)?;
        if self.sure.is_none() {
            self.sure = Some(had);
        }
        Ok(())
    }

    /// Leaves at most `len` bytes.
    pub(crate) fn shorten(&mut self, len: u64)
        ensures { file_of self.new ≡ shorter len (file_of self.old) }
    {
        let had = self.bytes.len();
        let Ok(len) = usize::try_from(len) else {
            return;
        };
        if len < had {
            self.sure = Some(least(self.sure, len));
            self.bytes.truncate(len);
        }
    }

    /// Makes all its bytes lasting.
    pub(crate) fn make_firm(&mut self)
        ensures { file_of self.new ≡ firm (file_of self.old) }
    {
        let _ = self.bytes.len();
        self.sure = None;
    }
}

/// These bytes, all but the first `sure` of them being `fill`.
fn filled_behind(alloc: Global, bytes: &[u8], sure: usize, fill: u8) -> Result<Vec<u8>, AllocError>
    requires { sure ≤ length bytes.now }
    ensures { IfOk result
        (λ filled. filled.items ≡ take sure bytes.now ++ map (λ _. fill) (drop sure bytes.now)) }
{
    let (front, rest) = bytes.split_at(sure);
    front
        .iter()
        .copied()
        .chain(rest.iter().map(|_| fill))
        .collect(alloc)
}

/// Copies as many bytes as both have room for.
fn copy_front(from: &[u8], to: &mut [u8]) -> usize
    ensures count { result ≡ min (length from.now) (length to.old) }
    ensures copied { take result to.new ≡ take result from.now }
{
    let count = from.len().min(to.len());
    to[..count].copy_from_slice(&from[..count]);
    count
}

/// How many bytes are lasting once at most `len` are left.
fn least(sure: Option<usize>, len: usize) -> usize
    ensures { result ≡ least sure len }
{
    match sure {
        Some(sure) if sure < len => sure,
        _ => len,
    }
}
