/// What a dialer in memory does behind one of its dials.
#[derive(Debug, Drop)]
pub enum Turn {
    /// It answers as an honest server that knows ranges.
    Honest,
    /// It answers 200 and the whole, whatever range is asked.
    Whole,
    /// As `Honest`, but the reply ends after so many bytes of the body.
    Cut(u64),
    /// It answers this status, with no body.
    Status(u16),
    /// It answers these bytes.
    Raw(Vec<u8>),
    /// The dial fails.
    DialFails,
    /// The first `send` fails.
    SendFails,
    /// As `Honest` for so many calls of `recv`, and the next one fails.
    RecvFails(u64),
}

impl Turn {
    ghost use Rattle.std.specs.Prelude.{◌≡◌};
    ghost use Rattle.link_http.specs.Turns.{fails_dial, fails_send, fails_recv};

    /// The dial is planned to fail.
    pub fn fails_dial(&self) -> bool
        ensures { result ≡ fails_dial self.now }
    {
        match self {
            Turn::DialFails => true,
            _ => false,
        }
    }

    /// A `send` behind so many of its connection is planned to fail.
    pub fn fails_send(&self, before: u64) -> bool
        ensures { result ≡ fails_send self.now before }
    {
        match self {
            Turn::SendFails => before == 0,
            _ => false,
        }
    }

    /// A `recv` behind so many of its connection is planned to fail.
    pub fn fails_recv(&self, before: u64) -> bool
        ensures { result ≡ fails_recv self.now before }
    {
        match self {
            Turn::RecvFails(n) => *n == before,
            _ => false,
        }
    }
}
