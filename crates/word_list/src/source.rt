//! Where items come from: a file of information, or the self-test.

ghost use Rattle.std.specs.Prelude.{◌≡◌, OnOk, Ok, IfErr};
ghost use Rattle.word_list.specs.Faults.{IsRefusal};
ghost use Rattle.word_list.specs.Groups as spec;

use crate::fault::ValueFault;
use crate::numbers::number;
use crate::values::some_text;
use std::alloc::Global;
use text_base::Text;

#[derive(Clone, Copy, Debug, PartialEq, Eq)]
pub enum SourceValue {
    /// The file of information.
    Info,
    /// How many items the self-test has.
    Selftest,
}

#[derive(Drop)]
pub struct Source {
    pub info: Option<Text>,
    pub selftest: Option<u64>,
}

impl Source {
    ghost use Rattle.std.specs.Prelude.{◌≡◌, OnOk, Ok, IfErr};
    ghost use Rattle.word_list.specs.Faults.{IsRefusal};
    ghost use Rattle.word_list.specs.Groups as spec;

    pub fn new() -> Source
        ensures { result ≡ spec.no_source }
    {
        Source {
            info: None,
            selftest: None,
        }
    }

    /// Gives an option its value.
    pub fn give(
        &mut self,
        alloc: Global,
        option: SourceValue,
        value: &str,
    ) -> Result<(), ValueFault>
        ensures set { OnOk result (spec.source_given option value.now self.old ≡ Ok self.new) }
        ensures fault { IfErr result (IsRefusal (spec.source_given option value.now self.old)) }
    {
        match option {
            SourceValue::Info => {
                self.info = Some(some_text(alloc, value)?);
                Ok(())
            }
            SourceValue::Selftest => {
                self.selftest = Some(number(value, 1, 10_000)?);
                Ok(())
            }
        }
    }
}
