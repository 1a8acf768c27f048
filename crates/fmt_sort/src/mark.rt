ghost use Rattle.std.specs.Prelude.{◌≡◌, drop};

/// A byte that parts a sort word.
#[derive(Clone, Copy, Debug)]
pub(crate) enum Mark {
    /// `,` between pieces.
    Comma,
    /// `:` between limits.
    Colon,
    /// `:` or `~` in front of a limit.
    Limit,
}

impl Mark {
    ghost use Rattle.std.specs.Prelude.{◌≡◌, ◌≤◌, drop, length};
    ghost use Rattle.fmt_sort.specs.Pieces as spec;
    ghost use Rattle.fmt_sort.specs.Marks.{is_marked};

    fn is_at(self, byte: u8) -> bool
        ensures { result ≡ is_marked self byte }
    {
        match self {
            Mark::Comma => byte == b',',
            Mark::Colon => byte == b':',
            Mark::Limit => byte == b':' || byte == b'~',
        }
    }

    /// The place of the first such byte, or the length.
    pub fn place(self, bytes: &[u8]) -> usize
        ensures place { result ≡ spec.cut (is_marked self) bytes.now }
        ensures within { result ≤ length bytes.now }
    {
        for (at, byte) in bytes.iter().enumerate() {
            if self.is_at(*byte) {
                return at;
            }
        }
        bytes.len()
    }

    /// What stands before the first such byte, and what stands from it on.
    pub fn split(self, bytes: &[u8]) -> (&[u8], &[u8])
        ensures before { result.0.now ≡ spec.before (is_marked self) bytes.now }
        ensures marked { result.1.now ≡ drop (spec.cut (is_marked self) bytes.now) bytes.now }
    {
        bytes.split_at(self.place(bytes))
    }
}

/// What stands behind a mark that may be there.
pub(crate) fn behind_mark(marked: &[u8]) -> &[u8]
    ensures { result.now ≡ drop 1 marked.now }
{
    match marked {
        [_, behind @ ..] => behind,
        [] => marked,
    }
}
