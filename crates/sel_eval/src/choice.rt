ghost use Rattle.std.specs.Prelude.{◌≡◌, [], ◌∷◌, ◌++◌, IfOk, OnOk, fold};
ghost use Rattle.sel_eval.specs.Keep.{is_dropped, kept_with};
ghost use Rattle.sel_eval.specs.Picks.{is_choice};

use crate::placed::Placed;
use crate::streams::Streams;
use std::alloc::Global;
use std::marker::Model;
use text_base::OutOfMemory;

/// Formats that are chosen together.
#[derive(Drop)]
pub(crate) struct Choice<'a> {
    parts: Vec<Placed<'a>>,
    /// Whether some part has video.
    video: bool,
    /// Whether some part has audio.
    audio: bool,
}

impl<'a> Model for Choice<'a> {
    ghost use Rattle.std.specs.Prelude.{List, ◌≡◌};
    ghost use Rattle.std.specs.Coded.{coded_list};
    ghost use Rattle.sel_eval.specs.Placed.{Placed as Plain, coded_placed, any_video, any_audio};

    ghost Value = { List Plain };

    ghost coded = { coded_list coded_placed };

    ghost view = { λ c. c.parts.items };

    ghost invariant = { λ c. (c.video ≡ any_video c.parts.items) × (c.audio ≡ any_audio c.parts.items) };
}

impl<'a> Choice<'a> {
    /// The choice of no format.
    pub(crate) fn new(alloc: Global) -> Choice<'a>
        ensures { result ≡ [] }
    {
        Choice {
            parts: Vec::new(alloc),
            video: false,
            audio: false,
        }
    }

    /// The choice of one format.
    pub(crate) fn of(alloc: Global, part: &Placed<'a>) -> Result<Choice<'a>, OutOfMemory>
        ensures { IfOk result (λ c. c ≡ part.now ∷ []) }
    {
        let mut parts = Vec::with_capacity(alloc, 1)?;
        parts.push(part.again())?;
        Ok(Choice {
            parts,
            video: part.has_video(),
            audio: part.has_audio(),
        })
    }

    pub(crate) fn parts(&self) -> &[Placed<'a>]
        ensures { result.now ≡ self.now }
    {
        &self.parts
    }

    /// Whether there is a part.
    pub(crate) fn has_parts(&self) -> bool
        ensures { result ≡ is_choice self.now }
    {
        !self.parts.is_empty()
    }

    pub(crate) fn copy(&self, alloc: Global) -> Result<Choice<'a>, OutOfMemory>
        ensures { IfOk result (λ c. c ≡ self.now) }
    {
        let mut parts = Vec::with_capacity(alloc, self.parts.len())?;
        for part in &self.parts {
            parts.push(part.again())?;
        }
        Ok(Choice {
            parts,
            video: self.video,
            audio: self.audio,
        })
    }

    /// Merges more formats into it, from the left.
    pub(crate) fn merge(
        &mut self,
        streams: &Streams,
        parts: &[Placed<'a>],
    ) -> Result<(), OutOfMemory>
        ensures { OnOk result (self.new ≡ fold (kept_with streams.now) self.old parts.now) }
    {
        for part in parts {
            if !self.drops(streams, part) {
                self.push(part.again())?;
            }
        }
        Ok(())
    }

    /// Whether one more part is dropped: it has no stream, or one that may not stand twice.
    fn drops(&self, streams: &Streams, part: &Placed<'a>) -> bool
        ensures { result ≡ is_dropped streams.now self.now part.now }
    {
        let video = part.has_video() && !streams.video && self.video;
        let audio = part.has_audio() && !streams.audio && self.audio;
        !part.has_stream() || video || audio
    }

    fn push(&mut self, part: Placed<'a>) -> Result<(), OutOfMemory>
        ensures { OnOk result (self.new ≡ self.old ++ part.entry ∷ []) }
    {
        let (video, audio) = (part.has_video(), part.has_audio());
        self.parts.push(part)?;
        self.video |= video;
        self.audio |= audio;
        Ok(())
    }
}
