//! Laws of the reading.

ghost use Rattle.std.specs.Prelude.{◌≡◌, ℕ, List, ◌++◌, length, true, Some, Ok, Err};
ghost use Rattle.sel_lang.specs.Places.{place_of, IsOpen, is_settled, Settle};
ghost use Rattle.sel_lang.specs.Plain.{Plain};
ghost use Rattle.sel_lang.specs.Reading.{sel_of, whole_at};
ghost use Rattle.sel_lang.specs.Spelled.{IsSpelled};
ghost use Rattle.sel_lang.specs.declared.sel_fault.SelFault.{SelFault as FaultView};
ghost use Rattle.sel_lang.specs.declared.sel_kind.SelKind.{SelKind as KindView};

/// What is spelled so, with groups nested at most 64 deep, is accepted.
pub fn spelled_is_accepted()
    ensures { (text : List ℕ) (sel : Plain) → IsSpelled text sel → sel_of text ≡ Ok sel }
{}

/// Before the place of a fault nothing is wrong: the text up to there can go on so that it is accepted.
pub fn nothing_is_wrong_before_a_fault()
    ensures { (front rest : List ℕ) (fault : FaultView) → sel_of (front ++ rest) ≡ Err fault → place_of fault ≡ Some (length front) → IsOpen front }
{}

/// A settled fault stays, whatever follows the bytes that settle it.
pub fn settled_fault_stays()
    ensures { (front near rest more : List ℕ) (kind : KindView) → is_settled kind ≡ true → Settle near → whole_at (front ++ (near ++ rest)) ≡ Err (kind, length (near ++ rest)) → whole_at (front ++ (near ++ more)) ≡ Err (kind, length (near ++ more)) }
{}
