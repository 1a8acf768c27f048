//! How files are named.

use crate::fault::ValueFault;
use crate::numbers::number;
use crate::values::template;
use std::alloc::Global;
use text_base::{OutOfMemory, Text};
use tpl_lang::Template;

#[derive(Clone, Copy, Debug, PartialEq, Eq)]
pub enum NamingFlag {
    /// Whether names are of ASCII alone.
    Restricted(bool),
}

#[derive(Clone, Copy, Debug, PartialEq, Eq)]
pub enum NamingValue {
    /// The template of names.
    Output,
    /// What stands for a value that is not there.
    Placeholder,
    /// The number of the first entry.
    FirstNumber,
    /// How many characters a name may have; with 0 any.
    Trim,
}

#[derive(Drop)]
pub struct Naming {
    pub template: Option<Template>,
    pub na: Text,
    pub first_number: u64,
    pub restricted: bool,
    pub trim: usize,
}

impl Naming {
    ghost use Rattle.std.specs.Prelude.{◌≡◌, IfOk, OnOk, Ok, IfErr};
    ghost use Rattle.word_list.specs.Faults.{IsRefusal};
    ghost use Rattle.word_list.specs.Groups as spec;

    pub fn new(alloc: Global) -> Result<Naming, OutOfMemory>
        ensures { IfOk result (λ n. n ≡ spec.no_naming) }
    {
        Ok(Naming {
            template: None,
            na: Text::new(alloc, "NA")?,
            first_number: 1,
            restricted: false,
            trim: 0,
        })
    }

    /// Turns a flag on or off.
    pub fn turn(&mut self, flag: NamingFlag)
        ensures { self.new ≡ spec.naming_turned flag self.old }
    {
        match flag {
            NamingFlag::Restricted(on) => self.restricted = on,
        }
    }

    /// Gives an option its value.
    pub fn give(
        &mut self,
        alloc: Global,
        option: NamingValue,
        value: &str,
    ) -> Result<(), ValueFault>
        ensures set { OnOk result (spec.naming_given option value.now self.old ≡ Ok self.new) }
        ensures fault { IfErr result (IsRefusal (spec.naming_given option value.now self.old)) }
    {
        match option {
            NamingValue::Output => {
                self.template = Some(template(alloc, value)?);
                Ok(())
            }
            NamingValue::Placeholder => {
                self.na = Text::new(alloc, value)?;
                Ok(())
            }
            NamingValue::FirstNumber => {
                self.first_number = number(value, 0, 1_000_000_000_000_000)?;
                Ok(())
            }
            NamingValue::Trim => {
                self.trim = number(value, 0, 4096)? as usize;
                Ok(())
            }
        }
    }
}
