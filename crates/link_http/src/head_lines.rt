ghost use Rattle.std.specs.Prelude.{◌≡◌, ◌≤◌, ◌&&◌, ◌||◌, not, nat_lt, ℕ, List, length};
ghost use Rattle.http_reply.specs.Heads.{heads_room, HeadShows};
ghost use Rattle.link_http.specs.HeadLines.{place_after, lines_after, ends_on, ends_in, Looked};

use http_reply::{HeadNext, next_head};
use httparse::spans::HeaderSpan;

const HEADS_ROOM: usize = 65_536;

/// Where the last line of a head stands, as far as it came.
#[derive(Clone, Copy)]
pub enum LinePlace {
    /// No text came yet, but CR and LF.
    Start,
    /// In a line that has text.
    Text,
    /// In a line that has nothing but CR so far, behind one that has text.
    Empty,
}

/// The lines of a head, as far as they came: it is read once its empty line has come, and where no
/// more will.
#[derive(Clone, Copy)]
pub struct HeadLines {
    /// Where the head begins.
    at: usize,
    /// Up to there the reply was looked at.
    seen: usize,
    place: LinePlace,
    /// No bytes that come can make a head of those that were looked at.
    is_over: bool,
}

/// What some bytes come to.
#[derive(Clone, Copy)]
struct Glance {
    place: LinePlace,
    /// An empty line behind text ends in them.
    ends: bool,
}

impl LinePlace {
    fn after(self, byte: u8) -> LinePlace
        ensures { result ≡ place_after self byte }
    {
        match byte {
            b'\r' => self,
            b'\n' => match self {
                LinePlace::Start => LinePlace::Start,
                _ => LinePlace::Empty,
            },
            _ => LinePlace::Text,
        }
    }

    fn ends_on(self, byte: u8) -> bool
        ensures { result ≡ ends_on self byte }
    {
        matches!(self, LinePlace::Empty) && byte == b'\n'
    }
}

/// Looks at bytes, from this place on.
fn look(from: LinePlace, bytes: &[u8]) -> Glance
    ensures place { result.place ≡ lines_after from bytes.now }
    ensures ends { result.ends ≡ ends_in from bytes.now }
{
    let mut place = from;
    let mut ends = false;
    for byte in bytes {
        ends |= place.ends_on(*byte);
        place = place.after(*byte);
    }
    Glance { place, ends }
}

/// Whether more of the heads may come.
fn may_go_on(came: &[u8], ended: bool) -> bool
    ensures { result ≡ (not ended && nat_lt (length came.now) heads_room) }
{
    !ended && came.len() < HEADS_ROOM
}

impl HeadLines {
    /// Of a head that begins there, of which nothing was looked at.
    pub fn new(at: usize) -> HeadLines
        ensures at { result.at ≡ at }
        ensures looked { (came : List ℕ) → at ≤ length came → Looked result came }
    {
        HeadLines {
            at,
            seen: at,
            place: LinePlace::Start,
            is_over: false,
        }
    }

    /// The next step through the heads, as `next_head` of http_reply tells it. A whole head is read
    /// as soon as it came. What is no head is not read again before an empty line ends in it, or no
    /// more comes.
    pub fn next_head(
        &mut self,
        came: &[u8],
        at: usize,
        ended: bool,
        headers: &mut [HeaderSpan],
    ) -> HeadNext
        requires within { at ≤ length came.now }
        requires fits { length came.now ≤ heads_room }
        requires looked { Looked self.old came.now }
        ensures looked { Looked self.new came.now }
        ensures shows { HeadShows came.now at ended headers.new result }
    {
        if at != self.at {
            *self = HeadLines::new(at);
        }
        self.next_step(came, ended, headers)
    }

    /// The next step, at the head whose lines these are.
    fn next_step(&mut self, came: &[u8], ended: bool, headers: &mut [HeaderSpan]) -> HeadNext
        requires fits { length came.now ≤ heads_room }
        requires looked { Looked self.old came.now }
        ensures looked { Looked self.new came.now }
        ensures shows { HeadShows came.now self.old.at ended headers.new result }
    {
        let (_, new) = came.split_at(self.seen);
        let look = look(self.place, new);
        let waits = may_go_on(came, ended);
        let quiet = self.is_quiet(look);
        if waits && quiet {
            let never = self.is_over;
            self.note(came.len(), look.place, never);
            return HeadNext::More { never };
        }
        match next_head(came, self.at, ended, headers) {
            HeadNext::More { never } => {
                self.note(came.len(), look.place, never);
                HeadNext::More { never }
            }
            next => next,
        }
    }

    /// Whether no whole head can have come with what this look saw.
    fn is_quiet(&self, look: Glance) -> bool
        ensures { result ≡ (self.now.is_over || not look.ends) }
    {
        self.is_over || !look.ends
    }

    /// Notes that all that came was looked at.
    fn note(&mut self, seen: usize, place: LinePlace, is_over: bool)
        ensures { self.new ≡ record self.old { seen = seen; place = place; is_over = is_over } }
    {
        self.seen = seen;
        self.place = place;
        self.is_over = is_over;
    }
}
