ghost use Rattle.std.specs.Prelude.{◌≡◌, ◌≢◌, ℕ, List, Bool, true, false, Option, IsOk, OnOk, OnErr, IfSome, MatchResult};
ghost use Rattle.std.specs.Io.{ReadsAtMost};
ghost use Rattle.std.specs.Io.KnownBytes.{Keeps, ReadConsumes};
ghost use Rattle.text_base.specs.Causes.{HasCause};
ghost use Rattle.ytdl_core.specs.Outside.{File, whole_file};

use text_base::Failed;

/// One file of information.
pub trait InfoSource {
    /// The file that it holds, where it tells.
    ghost file: { Self → Option File };

    /// The bytes that were not read yet, where it tells.
    ghost left: { Self → Option (List ℕ) };

    /// Whether the file is open.
    ghost is_open: { Self → Bool };

    /// How often it has failed.
    ghost faults: { Self → ℕ };

    /// That no call fails but an `open` of a name that it does not hold.
    ghost is_steady: { Self → Bool };

    /// Opens the file that it holds, once. After an `Err` it may be tried again.
    fn open(&mut self, name: &str) -> Result<(), Failed>
        requires { is_open self.old ≡ false }

        // An open file has all its bytes left. One that was not opened is as it was.
        ensures name { OnOk result (IfSome (file self.old) (λ f. f.name ≡ name.now)) }
        ensures open { MatchResult result (λ _. is_open self.new ≡ true) (λ _. is_open self.new ≡ false) }
        ensures left { MatchResult result (λ _. left self.new ≡ whole_file (file self.old))
            (λ _. Keeps (left self.old) (left self.new)) }
        ensures file { file self.new ≡ file self.old }

        // A steady source fails only at another name, and stays steady.
        ensures steady { is_steady self.old ≡ true → OnErr result
            (IfSome (file self.old) (λ f. f.name ≢ name.now)) }
        ensures stays { is_steady self.old ≡ true → is_steady self.new ≡ true }
        ensures cause { HasCause (faults self.old) (faults self.new) result };

    /// Reads some bytes to the front of the buffer: 0 into a buffer that is not empty means the end.
    fn read(&mut self, buf: &mut [u8]) -> Result<usize, Failed>
        requires { is_open self.old ≡ true }

        // What was read is no longer left, and a read that failed took nothing.
        ensures bound { ReadsAtMost result buf.new }
        ensures bytes { ReadConsumes (left self.old) (left self.new) result buf.new }
        ensures open { is_open self.new ≡ true }
        ensures file { file self.new ≡ file self.old }

        // A steady source does not fail, and stays steady.
        ensures steady { is_steady self.old ≡ true → IsOk result }
        ensures stays { is_steady self.old ≡ true → is_steady self.new ≡ true }
        ensures cause { HasCause (faults self.old) (faults self.new) result };
}
