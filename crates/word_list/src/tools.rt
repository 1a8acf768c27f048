//! What is done with files that are fetched.

use crate::entries::{audio_rules, remux_rules};
use crate::fault::ValueFault;
use crate::values::{command, some_text};
use job_plan::ExtRule;
use std::alloc::Global;
use text_base::{OutOfMemory, Text};
use tpl_lang::Template;

#[derive(Clone, Copy, Debug, PartialEq, Eq)]
pub enum ToolsFlag {
    /// Whether the files that others are made of are kept.
    Keep(bool),
    /// Files become files of audio.
    ExtractAudio,
    /// No command is run for a finished file.
    NoExec,
}

#[derive(Clone, Copy, Debug, PartialEq, Eq)]
pub enum ToolsValue {
    /// Which files videos become.
    Remux,
    /// Which files audio becomes.
    AudioFormat,
    /// A command that is run for each finished file; of several words each is run.
    Exec,
    /// The program that merges and converts files.
    Program,
}

#[derive(Drop)]
pub struct Tools {
    pub keep: bool,
    pub remux: Vec<ExtRule>,
    pub extracts: bool,
    pub audio: Vec<ExtRule>,
    pub exec: Vec<Template>,
    pub program: Text,
}

impl Tools {
    ghost use Rattle.std.specs.Prelude.{◌≡◌, IfOk, OnOk, Ok, IfErr};
    ghost use Rattle.word_list.specs.Faults.{IsRefusal};
    ghost use Rattle.word_list.specs.Groups as spec;
    ghost use Rattle.word_list.specs.Views.{plain_tools};

    pub fn new(alloc: Global) -> Result<Tools, OutOfMemory>
        ensures { IfOk result (λ t. plain_tools t ≡ spec.no_tools) }
    {
        Ok(Tools {
            keep: false,
            remux: Vec::new(alloc),
            extracts: false,
            audio: Vec::new(alloc),
            exec: Vec::new(alloc),
            program: Text::new(alloc, "ffmpeg")?,
        })
    }

    /// Turns a flag on or off.
    pub fn turn(&mut self, flag: ToolsFlag)
        ensures { plain_tools self.new ≡ spec.tools_turned flag (plain_tools self.old) }
    {
        match flag {
            ToolsFlag::Keep(on) => self.keep = on,
            ToolsFlag::ExtractAudio => self.extracts = true,
            ToolsFlag::NoExec => self.exec.clear(),
        }
    }

    /// Gives an option its value.
    pub fn give(&mut self, alloc: Global, option: ToolsValue, value: &str) -> Result<(), ValueFault>
        ensures set { OnOk result (spec.tools_given option value.now (plain_tools self.old) ≡ Ok (plain_tools self.new)) }
        ensures fault { IfErr result (IsRefusal (spec.tools_given option value.now (plain_tools self.old))) }
    {
        match option {
            ToolsValue::Remux => {
                self.remux = remux_rules(alloc, value)?;
                Ok(())
            }
            ToolsValue::AudioFormat => {
                self.audio = audio_rules(alloc, value)?;
                Ok(())
            }
            ToolsValue::Exec => {
                self.exec.push(command(alloc, value)?)?;
                Ok(())
            }
            ToolsValue::Program => {
                self.program = some_text(alloc, value)?;
                Ok(())
            }
        }
    }
}
