ghost use Rattle.std.specs.Prelude.{◌≡◌, ◌+◌, ◌^◌, ◌<◌, ◌≤◌, min};
ghost use Rattle.http_reply.specs.Chunked.{limit};
ghost use Rattle.http_reply.specs.Machine.{Does, IsSound};

use crate::chunk_line::{LineRead, read_line};
use crate::part::Part;
use crate::step::Step;
use crate::stop::Stop;

/// A reader of a chunked body.
#[derive(Clone, Copy)]
pub struct Chunks {
    at: u64,
    sum: u64,
    part: Part,
}

const LIMIT: u64 = 1_099_511_627_776;

impl Chunks {
    /// A reader of a body that begins at this offset of the reply.
    pub fn new(at: u64) -> Chunks
        requires { at < 2 ^ 62 }
        ensures begins { result ≡ record { at = at; sum = 0; part = Part.Line } }
        ensures sound { IsSound result }
    {
        Chunks {
            at,
            sum: 0,
            part: Part::Line,
        }
    }

    /// A reader of a body of a length that begins at this offset of the reply.
    pub fn sized(at: u64, len: u64) -> Chunks
        requires at { at < 2 ^ 62 }
        requires len { len ≤ limit }
        ensures begins { result ≡ record { at = at; sum = len; part = Part.Whole len } }
        ensures sound { IsSound result }
    {
        Chunks {
            at,
            sum: len,
            part: Part::Whole { left: len },
        }
    }

    /// What is to be done next.
    pub fn step(&mut self, window: &[u8]) -> Step
        requires { IsSound self.old }
        ensures does { Does self.old window.now result self.new }
        ensures sound { IsSound self.new }
    {
        match self.part {
            Part::Whole { left } => self.in_whole(left, window),
            Part::Line => self.at_line(window),
            Part::Data { left } => self.in_data(left, window),
            Part::Gap => self.after_data(window),
        }
    }

    fn in_whole(&mut self, left: u64, window: &[u8]) -> Step
        requires sound { IsSound self.old }
        requires part { self.old.part ≡ Part.Whole left }
        ensures does { Does self.old window.now result self.new }
        ensures sound { IsSound self.new }
    {
        if left == 0 {
            return Step::End(Stop::Last);
        }
        if window.is_empty() {
            return Step::Need;
        }
        let len = lesser(left, window.len());
        self.at += len as u64;
        self.part = Part::Whole {
            left: left - len as u64,
        };
        Step::Take(len)
    }

    fn at_line(&mut self, window: &[u8]) -> Step
        requires sound { IsSound self.old }
        requires part { self.old.part ≡ Part.Line }
        ensures does { Does self.old window.now result self.new }
        ensures sound { IsSound self.new }
    {
        match read_line(window) {
            LineRead::Open => Step::Need,
            LineRead::Unreadable => Step::End(Stop::Bad { at: self.at }),
            LineRead::Whole { size, len } => {
                if size == 0 {
                    return Step::End(Stop::Last);
                }
                let sum = self.sum.saturating_add(size);
                if sum > LIMIT {
                    return Step::End(Stop::Long { told: sum });
                }
                self.at += len as u64;
                self.sum = sum;
                self.part = Part::Data { left: size };
                Step::Pass(len)
            }
        }
    }

    fn in_data(&mut self, left: u64, window: &[u8]) -> Step
        requires sound { IsSound self.old }
        requires part { self.old.part ≡ Part.Data left }
        ensures does { Does self.old window.now result self.new }
        ensures sound { IsSound self.new }
    {
        if window.is_empty() {
            return Step::Need;
        }
        if (window.len() as u64) < left {
            let len = window.len() as u64;
            self.at += len;
            self.part = Part::Data { left: left - len };
            return Step::Take(window.len());
        }
        self.at += left;
        self.part = Part::Gap;
        Step::Take(left as usize)
    }

    fn after_data(&mut self, window: &[u8]) -> Step
        requires sound { IsSound self.old }
        requires part { self.old.part ≡ Part.Gap }
        ensures does { Does self.old window.now result self.new }
        ensures sound { IsSound self.new }
    {
        if window.is_empty() {
            return Step::Need;
        }
        if window[0] != b'\r' {
            return Step::End(Stop::Bad { at: self.at });
        }
        if window.len() == 1 {
            return Step::Need;
        }
        if window[1] != b'\n' {
            return Step::End(Stop::Bad { at: self.at });
        }
        self.at += 2;
        self.part = Part::Line;
        Step::Pass(2)
    }
}

/// The lesser one.
fn lesser(left: u64, len: usize) -> usize
    ensures { result ≡ min left len }
{
    if left < len as u64 {
        left as usize
    } else {
        len
    }
}
