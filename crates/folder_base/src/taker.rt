ghost use Rattle.std.specs.Prelude.{◌≡◌, ◌≤◌, ◌+◌, ◌++◌, ℕ, List, [], IfErr, OnOk, OnErr, length};
ghost use Rattle.folder_base.specs.declared.store_fault.StoreFault.{StoreFault};
ghost use Rattle.folder_base.specs.Took.{TookSome};

use crate::store_fault::StoreFault;

/// What bytes are put into, a piece at a time.
pub trait Taker {
    /// From the first taker to the second, `put`s alone were made, and they took just these bytes.
    /// An implementation also says by this relation what `put`s keep.
    ghost took: { Self → List ℕ → Self → Type 0 };

    /// How many bytes it may still be given.
    ghost spare: { Self → ℕ };

    /// A `put` of this piece may be refused with this fault.
    ghost may_refuse: { Self → List ℕ → StoreFault → Type 0 };

    /// Takes a piece. A refusal has taken a front of it.
    fn put(&mut self, bytes: &[u8]) -> Result<(), StoreFault>
        requires { length bytes.now ≤ spare self.old }
        ensures taken { OnOk result (took self.old bytes.now self.new) }
        ensures spent { OnOk result (spare self.new + length bytes.now ≡ spare self.old) }
        ensures part_taken { OnErr result (TookSome took self.old bytes.now self.new) }
        ensures part_spent { OnErr result (spare self.old ≤ spare self.new + length bytes.now) }
        ensures cause { IfErr result (λ fault. may_refuse self.old bytes.now fault) };

    /// Where no `put` was made nothing was taken.
    ghost took_none: { (taker : Self) → took taker [] taker };

    /// Two runs of `put`s in turn are one run.
    ghost took_both: { (first second third : Self) (front back : List ℕ)
        → took first front second → took second back third → took first (front ++ back) third };
}
