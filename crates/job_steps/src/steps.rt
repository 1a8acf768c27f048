//! What is made of fetched files, step by step.
ghost use Rattle.std.specs.Prelude.{◌≡◌, IfOk, map, option_map};
ghost use Rattle.info_item.specs.View.{are_several};
ghost use Rattle.job_steps.specs.Steps as spec;
ghost use Rattle.job_steps.specs.Views.{plain_step};

use crate::rule::ExtRule;
use crate::target::{AudioTarget, coding, ruled};
use info_item::Format;
use std::alloc::Global;
use text_base::OutOfMemory;

/// What a step does with its inputs.
#[derive(Clone, Copy, Debug, PartialEq, Eq)]
pub enum Change {
    Merge,
    /// Copies the streams into another container.
    Copy,
    /// Drops the video and codes the audio so.
    CodeAudio(&'static str),
}

/// A step: what it does, and the extension of its output.
#[derive(Debug, Drop)]
pub struct Step<'a> {
    pub change: Change,
    pub ext: &'a str,
}

/// How files are made of what is fetched.
#[derive(Drop)]
pub struct Making<'a> {
    pub remux: &'a [ExtRule],
    /// The rules by which audio is extracted, where it is.
    pub audio: Option<&'a [ExtRule]>,
}

/// Whether there are several parts.
fn are_several(parts: &[&Format<'_>]) -> bool
    ensures { result ≡ are_several (map (λ f. f.now) parts.now) }
{
    parts.len() > 1
}

/// Whether the only part has no video, and the extension of the target already.
fn is_done(parts: &[&Format<'_>], ext: &str, target: AudioTarget) -> bool
    ensures { result ≡ spec.is_done (map (λ f. f.now) parts.now) ext.now target }
{
    match parts {
        [part] => !part.has_video() && ext == target.ext(),
        _ => false,
    }
}

/// The step that copies into another container, where that differs.
fn copy_step<'a>(rules: &'a [ExtRule], ext: &str) -> Option<Step<'a>>
    ensures { option_map plain_step result ≡ spec.copy_step ext.now (spec.ruled rules.entry.now ext.now) }
{
    let target = ruled(rules, ext)?;
    if target == ext {
        return None;
    }
    Some(Step {
        change: Change::Copy,
        ext: target,
    })
}

/// The step that codes audio, where it is not coded so already.
fn audio_step<'a>(rules: &[ExtRule], parts: &[&Format<'_>], ext: &str) -> Option<Step<'a>>
    ensures { option_map plain_step result
        ≡ spec.audio_step (map (λ f. f.now) parts.now) ext.now (spec.coding rules.now (map (λ f. f.now) parts.now) ext.now) }
{
    let (target, coder) = coding(rules, parts, ext)?;
    if is_done(parts, ext, target) {
        return None;
    }
    Some(Step {
        change: Change::CodeAudio(coder),
        ext: target.ext(),
    })
}

impl<'a> Making<'a> {
    ghost use Rattle.std.specs.Prelude.{◌≡◌, IfOk, map, option_map};
    ghost use Rattle.job_steps.specs.Steps as spec;
    ghost use Rattle.job_steps.specs.Views.{plain_step};

    /// What is made of the only file.
    fn last_step(&self, parts: &[&Format<'_>], ext: &str) -> Option<Step<'a>>
        ensures { option_map plain_step result
            ≡ spec.last_step (option_map (λ rules. rules.now) self.now.audio) self.now.remux.now (map (λ f. f.now) parts.now) ext.now }
    {
        if let Some(rules) = self.audio {
            return audio_step(rules, parts, ext);
        }
        copy_step(self.remux, ext)
    }

    /// The steps of a combination, by its extension and by that as it stands in a name.
    pub fn steps_of(
        &self,
        alloc: Global,
        parts: &[&Format<'_>],
        ext: &str,
        clean_ext: &'a str,
    ) -> Result<Vec<Step<'a>>, OutOfMemory>
        ensures { IfOk result (λ v. map plain_step v.items
            ≡ spec.steps_of (option_map (λ rules. rules.now) self.now.audio) self.now.remux.now (map (λ f. f.now) parts.now) ext.now clean_ext.entry.now) }
    {
        let mut steps = Vec::with_capacity(alloc, 2)?;
        if are_several(parts) {
            steps.push(Step {
                change: Change::Merge,
                ext: clean_ext,
            })?;
        }
        if let Some(step) = self.last_step(parts, ext) {
            steps.push(step)?;
        }
        Ok(steps)
    }
}
