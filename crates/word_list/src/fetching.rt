//! How files are fetched, and which are passed over.

use crate::fault::ValueFault;
use crate::numbers::number;
use crate::values::archive;
use std::alloc::Global;
use text_base::Text;

#[derive(Clone, Copy, Debug, PartialEq, Eq)]
pub enum FetchingFlag {
    /// Whether a run goes on from what an earlier one left.
    Resume(bool),
    /// No archive is kept.
    NoArchive,
    /// Whether a run ends at an item of the archive.
    BreakOnExisting(bool),
    /// Whether nothing follows an entry that failed.
    AbortOnError(bool),
    /// A file with a missing fragment fails, as it does without this.
    AllFragments,
}

#[derive(Clone, Copy, Debug, PartialEq, Eq)]
pub enum FetchingValue {
    /// How many pieces are fetched at once.
    Workers,
    /// How often a piece is tried again.
    Retries,
    /// How often a fragment is tried again.
    FragmentRetries,
    /// The name of the archive.
    Archive,
}

#[derive(Drop)]
pub struct Fetching {
    pub workers: usize,
    pub retries: u32,
    pub fragment_retries: u32,
    pub resume: bool,
    pub archive: Option<Text>,
    pub break_on_existing: bool,
    pub abort_on_error: bool,
}

impl Fetching {
    ghost use Rattle.std.specs.Prelude.{◌≡◌, OnOk, Ok, IfErr};
    ghost use Rattle.word_list.specs.Faults.{IsRefusal};
    ghost use Rattle.word_list.specs.Groups as spec;

    pub fn new() -> Fetching
        ensures { result ≡ spec.no_fetching }
    {
        Fetching {
            workers: 1,
            retries: 10,
            fragment_retries: 10,
            resume: true,
            archive: None,
            break_on_existing: false,
            abort_on_error: false,
        }
    }

    /// Turns a flag on or off.
    pub fn turn(&mut self, flag: FetchingFlag)
        ensures { self.new ≡ spec.fetching_turned flag self.old }
    {
        match flag {
            FetchingFlag::Resume(on) => self.resume = on,
            FetchingFlag::NoArchive => self.archive = None,
            FetchingFlag::BreakOnExisting(on) => self.break_on_existing = on,
            FetchingFlag::AbortOnError(on) => self.abort_on_error = on,
            FetchingFlag::AllFragments => {}
        }
    }

    /// Gives an option its value.
    pub fn give(
        &mut self,
        alloc: Global,
        option: FetchingValue,
        value: &str,
    ) -> Result<(), ValueFault>
        ensures set { OnOk result (spec.fetching_given option value.now self.old ≡ Ok self.new) }
        ensures fault { IfErr result (IsRefusal (spec.fetching_given option value.now self.old)) }
    {
        match option {
            FetchingValue::Workers => {
                self.workers = number(value, 1, 32)? as usize;
                Ok(())
            }
            FetchingValue::Retries => {
                self.retries = number(value, 0, 1000)? as u32;
                Ok(())
            }
            FetchingValue::FragmentRetries => {
                self.fragment_retries = number(value, 0, 1000)? as u32;
                Ok(())
            }
            FetchingValue::Archive => {
                self.archive = Some(archive(alloc, value)?);
                Ok(())
            }
        }
    }
}
