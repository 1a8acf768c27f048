//! Laws of families of names.
ghost use Rattle.std.specs.Prelude.{◌↔◌, IsTrue};
ghost use Rattle.job_names.specs.Family.{Names, meets, Meet};

/// Law: two families share a name exactly where an exact name of the one is in the other.
pub fn exact_names_decide()
    ensures { (a b : Names) → IsTrue (meets a b) ↔ Meet a b }
{}
