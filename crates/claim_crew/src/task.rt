// What a worker does to an item.
ghost use Rattle.std.specs.Prelude.{◌≡◌, ℕ, Bool};

/// What is done to each item. `T` is an item; `H`, a hand, is what one worker works with and keeps from item to item.
pub trait Task<T, H> {
    // What an item of this number has to meet before it is worked on.
    ghost may: { Self → ℕ → T → Type 0 };
    // What work does: the item's number, the item and the hand before, the item and the hand after.
    ghost does: { Self → ℕ → T → H → T → H → Type 0 };
    // Which items, once worked on, count as failed.
    ghost fails: { T → Bool };

    /// Works on the item of the number `at`, counted from 0, and says whether it failed.
    fn work(&self, at: usize, item: &mut T, hand: &mut H) -> bool
        requires { may self.now at item.old }
        ensures does { does self.now at item.old hand.old item.new hand.new }
        ensures failed { result ≡ fails item.new };
}
