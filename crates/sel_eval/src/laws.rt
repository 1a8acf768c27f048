//! Laws of the definitions that contracts cite.

ghost use Rattle.std.specs.Prelude.{◌≡◌, ◌↔◌, ℕ, Some, Bool, filter, length, reverse};
ghost use Rattle.std.specs.List.{range_with_len};
ghost use Rattle.std.specs.List.Sorted.{IsPermutation};
ghost use Rattle.sel_eval.specs.Answer.{in_order};
ghost use Rattle.sel_eval.specs.Nth.{IsNth, is_better, is_worse};
ghost use Rattle.sel_eval.specs.Picks.{nth};
ghost use Rattle.sel_eval.specs.Placed.{Placed};

use info_item::Item;

/// The n-th of the candidates is the one that exactly n - 1 other candidates are better than, or worse than, whatever
/// filters left of the formats.
pub fn picks_are_ranked(item: &Item<'_>, order: &Vec<usize>)
    requires { IsPermutation (range_with_len 0 (length item.now.formats)) order.now.items }
    ensures best { (left candidate : Placed → Bool) (n : ℕ) (f : Placed) →
        (nth n (filter candidate (filter left (in_order item.now order.now.items))) ≡ Some f)
        ↔ IsNth (is_better order.now.items) candidate (filter left (in_order item.now order.now.items)) n f }
    ensures worst { (left candidate : Placed → Bool) (n : ℕ) (f : Placed) →
        (nth n (filter candidate (reverse (filter left (in_order item.now order.now.items)))) ≡ Some f)
        ↔ IsNth (is_worse order.now.items) candidate (reverse (filter left (in_order item.now order.now.items))) n f }
{}
