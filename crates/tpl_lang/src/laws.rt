//! Laws of the reading.

ghost use Rattle.std.specs.Prelude.{◌≡◌, ℕ, List, ◌∷◌, ◌++◌, length, true, Some, Ok, Err};
ghost use Rattle.tpl_lang.specs.Places.{place_of, IsOpen, is_free, is_settled};
ghost use Rattle.tpl_lang.specs.Reading.{template_of, whole_at};
ghost use Rattle.tpl_lang.specs.Spelled.{IsSpelled};
ghost use Rattle.tpl_lang.specs.declared.fault.TplFault.{TplFault as FaultView};
ghost use Rattle.tpl_lang.specs.declared.tpl_kind.TplKind.{TplKind as KindView};
ghost use Rattle.tpl_lang.specs.declared.template.Part.{Part as PartView};

/// What is accepted is spelled so.
pub fn accepted_is_spelled()
    ensures { (text : List ℕ) (parts : List PartView) → template_of text ≡ Ok parts → IsSpelled text parts }
{}

/// What is spelled so is accepted, so a text has one list of parts.
pub fn spelled_is_accepted()
    ensures { (text : List ℕ) (parts : List PartView) → IsSpelled text parts → template_of text ≡ Ok parts }
{}

/// Before the place of a fault nothing is wrong: the text up to there is accepted, or at fault only where it ends.
pub fn nothing_is_wrong_before_a_fault()
    ensures { (front rest : List ℕ) (fault : FaultView) → template_of (front ++ rest) ≡ Err fault → place_of fault ≡ Some (length front) → IsOpen front }
{}

/// A settled fault stays, whatever follows the three bytes from its place on: the first is no byte of a word, no `-` and no point.
pub fn settled_fault_stays()
    ensures { (front : List ℕ) (a b c : ℕ) (rest more : List ℕ) (kind : KindView) → is_free a ≡ true → is_settled kind ≡ true → whole_at (front ++ a ∷ b ∷ c ∷ rest) ≡ Err (kind, length (a ∷ b ∷ c ∷ rest)) → whole_at (front ++ a ∷ b ∷ c ∷ more) ≡ Err (kind, length (a ∷ b ∷ c ∷ more)) }
{}
