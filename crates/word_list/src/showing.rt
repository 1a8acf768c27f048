//! What is printed, and whether nothing else is done.

use crate::fault::ValueFault;
use crate::values::printed;
use std::alloc::Global;
use tpl_lang::Template;

#[derive(Clone, Copy, Debug, PartialEq, Eq)]
pub enum ShowingFlag {
    Simulate(bool),
    Quiet(bool),
}

#[derive(Clone, Copy, Debug, PartialEq, Eq)]
pub enum ShowingValue {
    /// What is printed for each entry; of several words each prints.
    Print,
}

#[derive(Drop)]
pub struct Showing {
    pub prints: Vec<Template>,
    pub simulate: Option<bool>,
    pub quiet: Option<bool>,
}

impl Showing {
    ghost use Rattle.std.specs.Prelude.{◌≡◌, OnOk, Ok, IfErr};
    ghost use Rattle.word_list.specs.Faults.{IsRefusal};
    ghost use Rattle.word_list.specs.Groups as spec;
    ghost use Rattle.word_list.specs.Views.{plain_showing};

    pub fn new(alloc: Global) -> Showing
        ensures { plain_showing result ≡ spec.no_showing }
    {
        Showing {
            prints: Vec::new(alloc),
            simulate: None,
            quiet: None,
        }
    }

    /// Turns a flag on or off.
    pub fn turn(&mut self, flag: ShowingFlag)
        ensures { plain_showing self.new ≡ spec.showing_turned flag (plain_showing self.old) }
    {
        match flag {
            ShowingFlag::Simulate(on) => self.simulate = Some(on),
            ShowingFlag::Quiet(on) => self.quiet = Some(on),
        }
    }

    /// Gives an option its value.
    pub fn give(
        &mut self,
        alloc: Global,
        option: ShowingValue,
        value: &str,
    ) -> Result<(), ValueFault>
        ensures set { OnOk result (spec.showing_given option value.now (plain_showing self.old) ≡ Ok (plain_showing self.new)) }
        ensures fault { IfErr result (IsRefusal (spec.showing_given option value.now (plain_showing self.old))) }
    {
        match option {
            ShowingValue::Print => {
                self.prints.push(printed(alloc, value)?)?;
                Ok(())
            }
        }
    }

    /// Whether nothing is downloaded: a print says so, unless words say otherwise.
    pub fn simulates(&self) -> bool
        ensures { result ≡ spec.simulates (plain_showing self.now) }
    {
        self.simulate.unwrap_or(!self.prints.is_empty())
    }

    /// Whether nothing is said of what is done: a print says so, unless words say otherwise.
    pub fn is_quiet(&self) -> bool
        ensures { result ≡ spec.is_quiet (plain_showing self.now) }
    {
        self.quiet.unwrap_or(!self.prints.is_empty())
    }
}
