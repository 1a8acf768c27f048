ghost use Rattle.std.specs.Prelude.{◌≡◌, Option, OnOk, IfOk, IfSome};
ghost use Rattle.ytdl_core.specs.Outside.{File, whole_file};

use std::io::Read;
use text_base::Failed;

/// What opens a file of information by its name.
pub trait Opener {
    /// What the bytes of the file are read from.
    type Reader: Read + Drop;

    /// The one file that it holds, where it tells.
    ghost file: { Self → Option File };

    /// Opens that file, from its first byte on.
    fn open(&self, name: &str) -> Result<Self::Reader, Failed>
        ensures name { OnOk result (IfSome (file self.now) (λ f. f.name ≡ name.now)) }
        ensures whole { IfOk result
            (λ reader. Self.Reader.Read.remaining reader ≡ whole_file (file self.now)) };
}
