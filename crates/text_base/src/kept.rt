ghost use Rattle.std.specs.Prelude.{◌≡◌, IfOk};
ghost use Rattle.std.specs.String.{string_bytes};
ghost use Rattle.text_base.specs.Kept.{kept_bytes};

use crate::faults::OutOfMemory;
use arrayvec::ArrayString;
use std::alloc::Global;

/// The most bytes that a text keeps in place.
const SHORT: usize = 16;

/// The bytes of a text: those of a short one stand in place and take no memory of their own.
#[derive(Debug)]
pub enum Kept {
    Short(ArrayString<SHORT>),
    Long(String),
}

impl Kept {
    /// A copy of a text.
    pub fn new(alloc: Global, text: &str) -> Result<Kept, OutOfMemory>
        ensures { IfOk result (λ k. kept_bytes k ≡ text.now) }
    {
        match ArrayString::from(text) {
            Ok(short) => Ok(Kept::Short(short)),
            Err(_) => Ok(Kept::Long(String::from_str(alloc, text)?)),
        }
    }

    pub fn from_string(text: String) -> Kept
        ensures { kept_bytes result ≡ string_bytes text }
    {
        match ArrayString::from(text.as_str()).ok() {
            Some(short) => Kept::Short(short),
            None => Kept::Long(text),
        }
    }

    pub fn as_str(&self) -> &str
        ensures { result.now ≡ kept_bytes self.now }
    {
        match self {
            Kept::Short(text) => text.as_str(),
            Kept::Long(text) => text.as_str(),
        }
    }
}

// One call wherever a text is dropped, so that no proof above asks how it was kept.
impl Drop for Kept {
    fn drop(self) {
        match self {
            Kept::Short(_) => {}
            Kept::Long(text) => drop(text),
        }
    }
}
