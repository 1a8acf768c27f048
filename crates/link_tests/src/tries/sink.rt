//! A taker that keeps what it was given.
ghost use Rattle.std.specs.Prelude.{◌≡◌, ◌++◌, ◌-◌, ◌^◌, ℕ, List, length};
ghost use Rattle.std.proofs.Common.{sym, ap, ◌∙◌, append-nil, append_assoc};
ghost use Rattle.folder_base.specs.declared.store_fault.StoreFault.TheVariants.{OutOfMemory};

use folder_base::{StoreFault, Taker};

#[derive(Drop)]
pub struct Sink {
    pub bytes: Vec<u8>,
}

impl Taker for Sink {
    ghost took = { λ old bytes new. new.bytes.items ≡ old.bytes.items ++ bytes };

    ghost spare = { λ sink. 2 ^ 64 - 1 - length sink.bytes.items };

    ghost may_refuse = { λ sink bytes fault. fault ≡ OutOfMemory };

    ghost took_none = { λ taker. sym (append-nil taker.bytes.items) };

    ghost took_both = { λ first second third front back a b.
        b ∙ ap (λ (bytes : List ℕ). bytes ++ back) a ∙ append_assoc first.bytes.items front back };

    fn put(&mut self, bytes: &[u8]) -> Result<(), StoreFault> {
        match self.bytes.extend_from_slice(bytes) {
            Ok(()) => Ok(()),
            Err(_) => Err(StoreFault::OutOfMemory),
        }
    }
}
