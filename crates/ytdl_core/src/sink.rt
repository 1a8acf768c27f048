ghost use Rattle.std.specs.Prelude.{◌≡◌, ◌≢◌, ℕ, List, Bool, true, Option, Err, OnOk, OnErr};
ghost use Rattle.std.specs.Io.KnownBytes.{Appends};
ghost use Rattle.text_base.specs.declared.faults.FolderFault.TheVariants.{Failed};
ghost use Rattle.ytdl_core.specs.Outside.{AppendsFront, HasCauses};

use text_base::FolderFault;

/// Where bytes are written.
pub trait Sink {
    /// All the bytes that it took, where it tells.
    ghost written: { Self → Option (List ℕ) };

    /// How often it has failed.
    ghost faults: { Self → ℕ };

    /// How often it was out of memory.
    ghost refusals: { Self → ℕ };

    /// That no call fails. It may still be out of memory.
    ghost is_steady: { Self → Bool };

    /// Writes all the bytes, or answers why it wrote only a front of them.
    fn put(&mut self, bytes: &[u8]) -> Result<(), FolderFault>
        ensures whole { OnOk result (Appends (written self.old) (written self.new) bytes.now) }
        ensures front { OnErr result (AppendsFront (written self.old) (written self.new) bytes.now) }

        // A steady sink does not fail, and stays steady.
        ensures steady { is_steady self.old ≡ true → result ≢ Err Failed }
        ensures stays { is_steady self.old ≡ true → is_steady self.new ≡ true }
        ensures causes { HasCauses (faults self.old) (faults self.new)
            (refusals self.old) (refusals self.new) result };
}
