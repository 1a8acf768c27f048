ghost use Rattle.std.specs.Prelude.{◌≡◌};
ghost use Rattle.word_list.specs.declared.fault.WordsFault.TheVariants as faults;
ghost use Rattle.word_list.specs.Faults as spec;

use fmt_sort::SortFault;
use sel_lang::SelFault;
use std::alloc::{AllocError, AllocFailed};
use text_base::OutOfMemory;
use tpl_lang::TplFault;

/// Why a word of the command line is refused.
#[derive(Clone, Copy, Debug, PartialEq, Eq)]
pub enum OptionFault {
    /// No option has this name, or letters stand behind the letter of a flag.
    Unknown,
    /// The words end where the option's value should stand.
    NeedsValue,
    BadValue,
    /// The value is no selector.
    Selector(SelFault),
    /// A piece of a sort word; pieces count from 0 over all sort words up to there.
    Sort(SortFault),
    /// The value is no template.
    Template(TplFault),
    /// No word names the file of information.
    NoInfo,
    /// It is no option and no value of one.
    Extra,
    /// A value is joined to a flag.
    TakesNone,
    /// What all words together ask for is not built; no word is read so.
    NotBuilt,
}

/// Why words give no options.
#[derive(Clone, Copy, Debug, PartialEq, Eq)]
pub enum WordsFault {
    /// The first word at fault. Words count from 0, and the number of words is where they end too early.
    Bad { word: usize, fault: OptionFault },
    OutOfMemory,
}

/// Why an option did not take its value.
#[derive(Clone, Copy, Debug, PartialEq, Eq)]
pub enum ValueFault {
    Bad(OptionFault),
    OutOfMemory,
}

/// The word at this place has this fault.
pub fn bad(word: usize, fault: OptionFault) -> WordsFault
    ensures { result ≡ faults.Bad word fault }
{
    WordsFault::Bad { word, fault }
}

/// The value of the option at this place has this fault; want of memory has no place.
pub fn at_word(word: usize, fault: ValueFault) -> WordsFault
    ensures { result ≡ spec.at_word word fault }
{
    match fault {
        ValueFault::Bad(fault) => bad(word, fault),
        ValueFault::OutOfMemory => WordsFault::OutOfMemory,
    }
}

impl From<OutOfMemory> for WordsFault {
    ghost use Rattle.std.specs.Prelude.{◌≡◌};

    ghost from_gives = { λ _ e. e ≡ faults.OutOfMemory };

    fn from(_: OutOfMemory) -> Self {
        WordsFault::OutOfMemory
    }
}

impl From<OutOfMemory> for ValueFault {
    ghost use Rattle.std.specs.Prelude.{◌≡◌};
    ghost use Rattle.word_list.specs.declared.fault.ValueFault.TheVariants as values;

    ghost from_gives = { λ _ e. e ≡ values.OutOfMemory };

    fn from(_: OutOfMemory) -> Self {
        ValueFault::OutOfMemory
    }
}

impl From<AllocError> for ValueFault {
    ghost use Rattle.std.specs.Prelude.{◌≡◌};
    ghost use Rattle.word_list.specs.declared.fault.ValueFault.TheVariants as values;

    ghost from_gives = { λ _ e. e ≡ values.OutOfMemory };

    fn from(_: AllocError) -> Self {
        ValueFault::OutOfMemory
    }
}

impl<T: Drop> From<AllocFailed<T>> for ValueFault {
    ghost use Rattle.std.specs.Prelude.{◌≡◌};
    ghost use Rattle.word_list.specs.declared.fault.ValueFault.TheVariants as values;

    ghost from_gives = { λ _ e. e ≡ values.OutOfMemory };

    fn from(_: AllocFailed<T>) -> Self {
        ValueFault::OutOfMemory
    }
}

impl From<SelFault> for ValueFault {
    ghost use Rattle.std.specs.Prelude.{◌≡◌};
    ghost use Rattle.word_list.specs.Faults.{of_selector};

    ghost from_gives = { λ f e. e ≡ of_selector f };

    fn from(fault: SelFault) -> Self {
        match fault {
            SelFault::OutOfMemory => ValueFault::OutOfMemory,
            fault => ValueFault::Bad(OptionFault::Selector(fault)),
        }
    }
}

impl From<SortFault> for ValueFault {
    ghost use Rattle.std.specs.Prelude.{◌≡◌};
    ghost use Rattle.word_list.specs.Faults.{of_sort};

    ghost from_gives = { λ f e. e ≡ of_sort f };

    fn from(fault: SortFault) -> Self {
        match fault {
            SortFault::OutOfMemory => ValueFault::OutOfMemory,
            fault => ValueFault::Bad(OptionFault::Sort(fault)),
        }
    }
}

impl From<TplFault> for ValueFault {
    ghost use Rattle.std.specs.Prelude.{◌≡◌};
    ghost use Rattle.word_list.specs.Faults.{of_template};

    ghost from_gives = { λ f e. e ≡ of_template f };

    fn from(fault: TplFault) -> Self {
        match fault {
            TplFault::OutOfMemory => ValueFault::OutOfMemory,
            fault => ValueFault::Bad(OptionFault::Template(fault)),
        }
    }
}
