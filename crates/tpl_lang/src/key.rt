use std::marker::Model;
use text_base::Text;

/// A slice of a list or of a text, as in Python. What is not written is none; a step is never 0.
#[derive(Clone, Copy, Debug, PartialEq, Eq)]
pub struct Slice {
    pub from: Option<i64>,
    pub to: Option<i64>,
    pub step: Option<i64>,
}

/// The keys between braces, in the order of the text. Contracts see the list of them.
#[derive(Debug, Drop)]
pub struct Words {
    words: Vec<Text>,
}

impl Model for Words {
    ghost use Rattle.std.specs.Prelude.{List, ℕ};

    ghost Value = { List (List ℕ) };

    ghost view = { λ w. w.words.items };
}

impl Words {
    ghost use Rattle.std.specs.Prelude.{◌≡◌};

    pub(crate) fn new(words: Vec<Text>) -> Words
        ensures { result ≡ words.items }
    {
        Words { words }
    }

    pub fn as_slice(&self) -> &[Text]
        ensures { result.now ≡ self.now }
    {
        self.words.as_slice()
    }
}

/// A step of a path.
#[derive(Debug, Drop)]
pub enum Key {
    /// A place of a list or of a text, from the end where negative; of a map it is the key that is spelled so.
    Int { spelling: Text, place: i64 },
    Slice(Slice),
    /// A key of a map.
    Word(Text),
    /// Some keys of a map, which make a map.
    Braces(Words),
}
