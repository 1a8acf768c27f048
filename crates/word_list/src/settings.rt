//! What words have set so far.

ghost use Rattle.std.specs.Prelude.{◌≡◌, ◌⊎◌, IfOk, OnOk, IfErr, Ok, Err};
ghost use Rattle.word_list.specs.declared.fault.WordsFault.TheVariants as words;
ghost use Rattle.word_list.specs.Options as options;
ghost use Rattle.word_list.specs.Views.{plain_options, plain_settings};

use crate::choosing::Choosing;
use crate::fault::{OptionFault, ValueFault, WordsFault, at_word, bad};
use crate::fetching::Fetching;
use crate::meaning::{Flag, Valued};
use crate::naming::Naming;
use crate::options::{Options, options_of};
use crate::showing::Showing;
use crate::source::Source;
use crate::tools::Tools;
use std::alloc::Global;
use text_base::OutOfMemory;

/// What words have set so far, in groups.
#[derive(Drop)]
pub struct Settings {
    pub source: Source,
    pub choosing: Choosing,
    pub naming: Naming,
    pub showing: Showing,
    pub fetching: Fetching,
    pub tools: Tools,
}

impl Settings {
    ghost use Rattle.std.specs.Prelude.{◌≡◌, ◌⊎◌, IfOk, OnOk, IfErr, Ok, Err};
    ghost use Rattle.word_list.specs.declared.fault.WordsFault.TheVariants as words;
    ghost use Rattle.word_list.specs.Faults.{IsRefusal};
    ghost use Rattle.word_list.specs.Options as options;
    ghost use Rattle.word_list.specs.Settings as spec;
    ghost use Rattle.word_list.specs.Uses.{given};
    ghost use Rattle.word_list.specs.Views.{plain_options, plain_settings};

    pub fn new(alloc: Global) -> Result<Settings, OutOfMemory>
        ensures { IfOk result (λ s. plain_settings s ≡ spec.no_settings) }
    {
        Ok(Settings {
            source: Source::new(),
            choosing: Choosing::new(alloc),
            naming: Naming::new(alloc)?,
            showing: Showing::new(alloc),
            fetching: Fetching::new(),
            tools: Tools::new(alloc)?,
        })
    }

    /// Turns a flag on or off.
    pub fn turn(&mut self, flag: Flag)
        ensures { plain_settings self.new ≡ spec.turned_on flag (plain_settings self.old) }
    {
        match flag {
            Flag::Choosing(flag) => self.choosing.turn(flag),
            Flag::Naming(flag) => self.naming.turn(flag),
            Flag::Showing(flag) => self.showing.turn(flag),
            Flag::Fetching(flag) => self.fetching.turn(flag),
            Flag::Tools(flag) => self.tools.turn(flag),
        }
    }

    /// Gives the option at this place its value.
    pub fn give(
        &mut self,
        alloc: Global,
        place: usize,
        option: Valued,
        value: &str,
    ) -> Result<(), WordsFault>
        ensures set { OnOk result (spec.used (given place option value.now) (plain_settings self.old) ≡ Ok (plain_settings self.new)) }
        ensures fault { IfErr result (λ fault. (fault ≡ words.OutOfMemory) ⊎
            (spec.used (given place option value.now) (plain_settings self.old) ≡ Err fault)) }
    {
        match self.set(alloc, option, value) {
            Ok(()) => Ok(()),
            Err(fault) => Err(at_word(place, fault)),
        }
    }

    /// Gives an option its value.
    fn set(&mut self, alloc: Global, option: Valued, value: &str) -> Result<(), ValueFault>
        ensures set { OnOk result (spec.value_given option value.now (plain_settings self.old) ≡ Ok (plain_settings self.new)) }
        ensures fault { IfErr result (IsRefusal (spec.value_given option value.now (plain_settings self.old))) }
    {
        match option {
            Valued::Source(option) => self.source.give(alloc, option, value),
            Valued::Choosing(option) => self.choosing.give(alloc, option, value),
            Valued::Naming(option) => self.naming.give(alloc, option, value),
            Valued::Showing(option) => self.showing.give(alloc, option, value),
            Valued::Fetching(option) => self.fetching.give(alloc, option, value),
            Valued::Tools(option) => self.tools.give(alloc, option, value),
        }
    }

    /// The options that are set at the end of so many words, where nothing is missing.
    pub fn options(self, alloc: Global, total: usize) -> Result<Options, WordsFault>
        ensures options { IfOk result (λ o. options.ended total (plain_settings self) ≡ Ok (plain_options o)) }
        ensures fault { IfErr result (λ fault. (fault ≡ words.OutOfMemory) ⊎
            (options.ended total (plain_settings self) ≡ Err fault)) }
    {
        if let Some(count) = self.source.selftest {
            return Ok(selftest_options(alloc, count)?);
        }
        if self.source.info.is_none() {
            return Err(bad(total, OptionFault::NoInfo));
        }
        Ok(options_of(alloc, self)?)
    }
}

/// The options of the self-test over so many items.
fn selftest_options(alloc: Global, count: u64) -> Result<Options, OutOfMemory>
    ensures { IfOk result (λ o. plain_options o ≡ options.selftest_options count) }
{
    let options = options_of(alloc, Settings::new(alloc)?)?;
    Ok(Options {
        quiet: true,
        workers: 4,
        selftest: Some(count),
        ..options
    })
}
