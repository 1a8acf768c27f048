ghost use Rattle.std.specs.Prelude.{◌≡◌, IfOk};

use crate::faults::OutOfMemory;
use crate::kept::Kept;
use std::alloc::Global;
use std::marker::Model;

/// A text that contracts see as the list of its UTF-8 bytes.
#[derive(Debug, Drop)]
pub struct Text {
    kept: Kept,
}

impl Model for Text {
    ghost use Rattle.std.specs.Prelude.{List, ℕ};
    ghost use Rattle.text_base.specs.Kept.{kept_bytes};

    ghost Value = { List ℕ };

    ghost view = { λ t. kept_bytes t.kept };
}

impl Text {
    /// A copy of a text.
    pub fn new(alloc: Global, text: &str) -> Result<Text, OutOfMemory>
        ensures { IfOk result (λ t. t ≡ text.now) }
    {
        Ok(Text {
            kept: Kept::new(alloc, text)?,
        })
    }

    /// The text without its allocation.
    pub fn as_str(&self) -> &str
        ensures { result.now ≡ self.now }
    {
        self.kept.as_str()
    }
}

impl From<String> for Text {
    ghost use Rattle.std.specs.String.{string_bytes};

    ghost from_gives = { λ s t. t ≡ string_bytes s };

    fn from(text: String) -> Self {
        Text {
            kept: Kept::from_string(text),
        }
    }
}
