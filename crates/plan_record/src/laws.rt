//! Laws of records and names.
ghost use Rattle.std.specs.Prelude.{◌≡◌, ◌++◌, ◌||◌, [], ◌∷◌, true, false, decimal, bytes_eq};
ghost use Rattle.plan_record.specs.Names.{begins, is_beside, stem_of, promise_of};
ghost use Rattle.plan_record.specs.Plan.{are_lines, plan_text};

use crate::line::Line;

/// Law: one text, one plan. Where no line has an LF, the texts of two plans are equal only where the plans are.
pub fn plan_sole(_one: &[Line], _other: &[Line])
    ensures { are_lines _one.now ≡ true → are_lines _other.now ≡ true → plan_text _one.now ≡ plan_text _other.now → _one.now ≡ _other.now }
{}

/// Law: no stem of a component is another's, and none followed by a point begins another.
pub fn stems_apart(_component: &str, _piece: u64, _other: u64)
    ensures { (_piece ≡ _other → ⊥) →
        (bytes_eq (stem_of _component.now _piece) (stem_of _component.now _other) || begins (stem_of _component.now _piece ++ 46 ∷ []) (stem_of _component.now _other)) ≡ false }
{}

/// Law: a promise's name is its piece's stem, `.@` and the number of bytes.
pub fn promise_name(_component: &str, _piece: u64, _len: u64)
    ensures { (stem_of _component.now _piece ++ 46 ∷ 64 ∷ []) ++ decimal _len ≡ promise_of _component.now _piece _len }
{}

/// Law: the component's own name is none of those beside it.
pub fn component_is_none_beside(_component: &str)
    ensures { is_beside _component.now _component.now ≡ false }
{}
