ghost use Rattle.std.specs.Prelude.{◌≡◌, map, Some, None, IfOk, if◌then◌else◌};
ghost use Rattle.std.specs.Str.{is_utf8};
ghost use Rattle.link_http.specs.Memory.{asked_texts, talk_of, world_at, world_of};
ghost use Rattle.link_http.specs.Turns.{plans_no_fault};
ghost use Rattle.link_http.specs.Wire.{ends_request};

use crate::dialer::Dialer;
use crate::mem_asked::{asked_bytes, asked_from};
use crate::mem_dial::MemDial;
use crate::mem_line::MemLine;
use crate::mem_reply::reply_to;
use crate::mem_talk::MemTalk;
use crate::page::Page;
use crate::resource::Resource;
use crate::turn::Turn;
use std::alloc::Global;
use text_base::{Failed, FolderFault, OutOfMemory, Text};

/// A dialer in memory: it answers for the pages of a world, its k-th dial by the k-th turn of a
/// script and later ones honestly. Of two pages with one address the first stands.
#[derive(Drop)]
pub struct DialerMem {
    alloc: Global,
    resources: Vec<Resource>,
    script: Vec<Turn>,
    faults: u64,
    dials: Vec<MemDial>,
    talks: Vec<MemTalk>,
    requests: Vec<Text>,
    line: Option<MemLine>,
    ghost listed: { requests.items ≡ asked_texts (map talk_of talks.items) },
}

/// The resources of pages, those whose URLs lead anywhere.
fn placed(alloc: Global, pages: Vec<Page>) -> Result<Vec<Resource>, OutOfMemory>
    ensures { IfOk result (λ resources. world_at resources.items ≡ world_of pages.items) }
{
    let mut resources = Vec::new(alloc);
    for page in pages {
        if let Some(resource) = Resource::of(alloc, page)? {
            resources.push(resource)?;
        }
    }
    Ok(resources)
}

impl DialerMem {
    ghost use Rattle.std.specs.Prelude.{◌≤◌, ◌++◌, ◌∷◌, [], true, IsTrue, OnOk, OnErr};
    ghost use Rattle.text_base.specs.Causes.{Rose};
    ghost use Rattle.link_http.specs.Memory.{wire_by, place_of, connection_of, SendsText};
    ghost use Rattle.link_http.specs.Turns.{plans_whole_replies, turn_at, fails_dial, fails_send, fails_recv};
    ghost use Rattle.link_http.specs.MemoryDialer.{wire_of, script_of};

    /// A dialer for these pages by this script. It tells, and goes on telling; it serves where
    /// the script plans whole replies.
    pub fn new(alloc: Global, world: Vec<Page>, script: Vec<Turn>) -> Result<DialerMem, OutOfMemory>
        ensures tells { IfOk result (λ dialer. wire_of dialer
            ≡ wire_by (plans_no_fault script.items) (plans_whole_replies script.items)
            (world_of world.items) 0 [] [] None) }
        ensures script { IfOk result (λ dialer. script_of dialer ≡ script.items) }
    {
        let resources = placed(alloc, world)?;
        Ok(DialerMem {
            alloc,
            resources,
            script,
            faults: 0,
            dials: Vec::new(alloc),
            talks: Vec::new(alloc),
            requests: Vec::new(alloc),
            line: None,
        })
    }

    /// The texts of the requests that were asked.
    pub fn asked(&self) -> &Vec<Text>
        ensures tells { IsTrue (wire_of self.now).tells }
        ensures listed { result.now.items ≡ asked_texts (wire_of self.now).talks }
    {
        &self.requests
    }

    fn count_fault(&mut self)
        ensures same { self.new ≡ record self.old { faults = self.new.faults } }
        ensures later { self.old.faults ≤ self.new.faults }
        ensures rose { Rose self.old.faults self.new.faults }
    {
        self.faults = self.faults.saturating_add(1);
    }

    fn note_dial(&mut self, host: &str, port: u16) -> Result<(), OutOfMemory>
        ensures same { self.new ≡ record self.old { dials = self.new.dials } }
        ensures ok { OnOk result (map place_of self.new.dials.items
            ≡ map place_of self.old.dials.items ++ record { host = host.now; port = port } ∷ []) }
        ensures err { OnErr result (self.new.dials.items ≡ self.old.dials.items) }
    {
        let dial = MemDial::new(self.alloc, host, port)?;
        self.dials.push(dial)?;
        Ok(())
    }

    /// The turn of this number plans a fault of its dial.
    fn fails_dial(&self, turn: usize) -> bool
        ensures { result ≡ fails_dial (turn_at self.now.script.items turn) }
    {
        match self.script.get(turn) {
            Some(turn) => turn.fails_dial(),
            None => false,
        }
    }

    /// The turn of a connection plans a fault of its next `send`.
    fn fails_send(&self, line: &MemLine) -> bool
        ensures { result ≡ fails_send (turn_at self.now.script.items line.now.turn) line.now.sends }
    {
        match self.script.get(line.turn) {
            Some(turn) => turn.fails_send(line.sends),
            None => false,
        }
    }

    /// The turn of a connection plans a fault of its next `recv`.
    fn fails_recv(&self, line: &MemLine) -> bool
        ensures { result ≡ fails_recv (turn_at self.now.script.items line.now.turn) line.now.receives }
    {
        match self.script.get(line.turn) {
            Some(turn) => turn.fails_recv(line.receives),
            None => false,
        }
    }

    /// Adds what was sent, and answers it where it is a whole request.
    fn add_sent(&mut self, line: &mut MemLine, bytes: &[u8]) -> Result<(), OutOfMemory>
        ensures same { self.new ≡ record self.old {
          talks = self.new.talks;
          requests = self.new.requests;
          listed = self.new.listed;
        } }
        ensures line { line.new ≡ record line.old {
          sent = line.new.sent;
          reply = line.new.reply;
          at = line.new.at;
        } }
        ensures ok { OnOk result (let text = line.old.sent.items ++ bytes.now in
            SendsText (ends_request text) self.old.script.items self.old.resources.items text
            line.old line.new self.old.talks.items self.new.talks.items) }
        ensures err { OnErr result (map talk_of self.new.talks.items ≡ map talk_of self.old.talks.items) }
    {
        line.sent.extend_from_slice(bytes)?;
        if ends_request(&line.sent) {
            return self.answer(line);
        }
        Ok(())
    }

    /// Answers the request that was sent.
    fn answer(&mut self, line: &mut MemLine) -> Result<(), OutOfMemory>
        ensures same { self.new ≡ record self.old {
          talks = self.new.talks;
          requests = self.new.requests;
          listed = self.new.listed;
        } }
        ensures line { line.new ≡ record line.old {
          sent = line.new.sent;
          reply = line.new.reply;
          at = line.new.at;
        } }
        ensures ok { OnOk result (SendsText true self.old.script.items self.old.resources.items
            line.old.sent.items line.old line.new self.old.talks.items self.new.talks.items) }
        ensures err { OnErr result (map talk_of self.new.talks.items ≡ map talk_of self.old.talks.items) }
    {
        let honest = Turn::Honest;
        let turn = self.script.get(line.turn).unwrap_or(&honest);
        let found = asked_bytes(&self.resources, &line.dial, &line.sent);
        let reply = reply_to(self.alloc, turn, found, asked_from(&line.sent))?;
        let talk = MemTalk {
            dial: line.dial.copy(self.alloc)?,
            turn: line.turn,
            request: Vec::from_slice(self.alloc, &line.sent)?,
            reply: Vec::from_slice(self.alloc, &reply)?,
        };
        self.note_talk(talk)?;
        line.sent.clear();
        line.reply = reply;
        line.at = 0;
        Ok(())
    }

    /// Tells a talk, and lists its request, if it is text.
    fn note_talk(&mut self, talk: MemTalk) -> Result<(), OutOfMemory>
        ensures same { self.new ≡ record self.old {
          talks = self.new.talks;
          requests = self.new.requests;
          listed = self.new.listed;
        } }
        ensures ok { OnOk result (self.new.talks.items ≡ self.old.talks.items ++ talk ∷ []) }
        ensures err { OnErr result (self.new.talks.items ≡ self.old.talks.items) }
    {
        let text = read_text(self.alloc, &talk.request)?;
        self.talks.reserve(1)?;
        if let Some(text) = text {
            self.requests.push(text)?;
        }
        self.talks.push(talk)?;
        Ok(())
    }
}

/// A request, if it is text.
fn read_text(alloc: Global, request: &[u8]) -> Result<Option<Text>, OutOfMemory>
    ensures { IfOk result (λ text. text ≡ (if is_utf8 request.now then Some request.now else None)) }
{
    match str::from_utf8(request) {
        Ok(text) => Ok(Some(Text::new(alloc, text)?)),
        Err(_) => Ok(None),
    }
}

/// Whether a text ends with an empty line.
fn ends_request(text: &[u8]) -> bool
    ensures { result ≡ ends_request text.now }
{
    text.ends_with(b"\r\n\r\n")
}

impl Dialer for DialerMem {
    ghost use Rattle.std.specs.Prelude.{◌≡◌, ◌≤◌, ◌<◌, ◌↔◌, IsTrue, IsSome, OnErr, IsOk, is_err, length, take};
    ghost use Rattle.link_http.specs.MemoryDialer.{wire_of, DialsByPlan, SendsByPlan, HearsByPlan};
    ghost use Rattle.link_http.specs.Wire.{Counts, has_failed, Dials, Sends, Hears, AsksNothing};

    ghost wire = { wire_of };

    fn dial(&mut self, host: &str, port: u16) -> Result<(), FolderFault>
        ensures counts { Counts (wire_of self.old) (wire_of self.new) (has_failed result) }
        ensures connected { IsSome (wire_of self.new).line ↔ IsOk result }
        ensures told { IsTrue (wire_of self.new).tells
            → Dials host.now port (wire_of self.old) (wire_of self.new) result }
        ensures plan { DialsByPlan self.old self.new result }
    {
        self.line = None;
        let number = self.dials.len();
        if self.note_dial(host, port).is_err() {
            return Err(FolderFault::OutOfMemory);
        }
        if self.fails_dial(number) {
            self.count_fault();
            return Err(FolderFault::Failed);
        }
        match MemLine::new(self.alloc, host, port, number) {
            Ok(line) => {
                self.line = Some(line);
                Ok(())
            }
            Err(OutOfMemory) => Err(FolderFault::OutOfMemory),
        }
    }

    fn send(&mut self, bytes: &[u8]) -> Result<usize, FolderFault>
        requires connected { IsSome (wire_of self.old).line }
        requires some { 0 < length bytes.now }
        ensures counts { Counts (wire_of self.old) (wire_of self.new) (has_failed result) }
        ensures connected { IsSome (wire_of self.new).line }
        ensures sent { IfOk result (λ n. (0 < n) × (n ≤ length bytes.now)) }
        ensures kept { IsTrue (wire_of self.new).tells
            → OnErr result (AsksNothing (wire_of self.old) (wire_of self.new)) }
        ensures told { IsTrue (wire_of self.new).tells
            → IfOk result (λ n. Sends (take n bytes.now) (wire_of self.old) (wire_of self.new)) }
        ensures plan { SendsByPlan self.old self.new result }
    {
        let Some(mut line) = self.line.take() else {
            unreachable!()
        };
        let fails = self.fails_send(&line);
        line.sends = line.sends.saturating_add(1);
        if fails {
            self.line = Some(line);
            self.count_fault();
            return Err(FolderFault::Failed);
        }
        let added = self.add_sent(&mut line, bytes);
        self.line = Some(line);
        match added {
            Ok(()) => Ok(bytes.len()),
            Err(OutOfMemory) => Err(FolderFault::OutOfMemory),
        }
    }

    fn recv(&mut self, buf: &mut [u8]) -> Result<usize, Failed>
        requires connected { IsSome (wire_of self.old).line }
        ensures counts { Counts (wire_of self.old) (wire_of self.new) (is_err result) }
        ensures connected { IsSome (wire_of self.new).line }
        ensures placed { IfOk result (λ n. n ≤ length buf.new) }
        ensures asks { IsTrue (wire_of self.new).tells
            → AsksNothing (wire_of self.old) (wire_of self.new) }
        ensures told { IsTrue (wire_of self.new).tells
            → IfOk result (λ n. Hears (length buf.old) n buf.new (wire_of self.old) (wire_of self.new)) }
        ensures plan { HearsByPlan self.old self.new result }
    {
        let Some(mut line) = self.line.take() else {
            unreachable!()
        };
        let fails = self.fails_recv(&line);
        line.receives = line.receives.saturating_add(1);
        if fails {
            self.line = Some(line);
            self.count_fault();
            return Err(Failed);
        }
        let n = line.read(buf);
        self.line = Some(line);
        Ok(n)
    }

    fn hang_up(&mut self) {
        self.line = None;
    }
}
