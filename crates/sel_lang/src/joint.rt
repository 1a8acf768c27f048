ghost use Rattle.std.specs.Prelude.{◌≡◌, ◌<◌};
ghost use Rattle.sel_lang.specs.Reading.{mark_of};

/// What joins selectors, from the loosest on.
#[derive(Clone, Copy, Debug, PartialEq, Eq)]
pub(crate) enum Joint {
    Comma,
    Slash,
    Plus,
}

impl Joint {
    pub(crate) fn mark(self) -> u8
        ensures value { result ≡ mark_of self }
        ensures ascii { result < 128 }
    {
        match self {
            Joint::Comma => b',',
            Joint::Slash => b'/',
            Joint::Plus => b'+',
        }
    }
}
