use info_item::ItemFault;
use info_tree::TreeFault;
use std::alloc::AllocError;
use text_base::OutOfMemory;
use word_list::OptionFault;

/// Why an information file gives no items.
#[derive(Clone, Copy, Debug, PartialEq, Eq)]
pub enum InfoFault {
    Tree(TreeFault),
    Item(ItemFault),
}

/// Standard output, or standard error.
#[derive(Clone, Copy, Debug, PartialEq, Eq)]
pub enum Which {
    Out,
    Err,
}

/// Why there is no report.
#[derive(Debug, PartialEq, Eq, Drop)]
pub enum RunFault {
    /// The first word at fault. Words count from 0, and the number of words is where they end too early.
    Options { word: usize, fault: OptionFault },
    /// The information has this fault.
    Info { fault: InfoFault },
    /// The source of information failed.
    InfoRead,
    /// A sink failed.
    Write { which: Which },
    OutOfMemory,
}

impl From<OutOfMemory> for RunFault {
    ghost use Rattle.std.specs.Prelude.{◌≡◌};
    ghost use Rattle.ytdl_core.specs.declared.run_fault.RunFault.TheVariants as fault;

    ghost from_gives = { λ _ e. e ≡ fault.OutOfMemory };

    fn from(_: OutOfMemory) -> Self {
        RunFault::OutOfMemory
    }
}

impl From<AllocError> for RunFault {
    ghost use Rattle.std.specs.Prelude.{◌≡◌};
    ghost use Rattle.ytdl_core.specs.declared.run_fault.RunFault.TheVariants as fault;

    ghost from_gives = { λ _ e. e ≡ fault.OutOfMemory };

    fn from(_: AllocError) -> Self {
        RunFault::OutOfMemory
    }
}

impl From<TreeFault> for RunFault {
    ghost use Rattle.std.specs.Prelude.{◌≡◌};
    ghost use Rattle.ytdl_core.specs.Faults.{of_tree};

    ghost from_gives = { λ f e. e ≡ of_tree f };

    fn from(fault: TreeFault) -> Self {
        match fault {
            TreeFault::OutOfMemory => RunFault::OutOfMemory,
            fault => RunFault::Info {
                fault: InfoFault::Tree(fault),
            },
        }
    }
}

impl From<ItemFault> for RunFault {
    ghost use Rattle.std.specs.Prelude.{◌≡◌};
    ghost use Rattle.ytdl_core.specs.Faults.{of_items};

    ghost from_gives = { λ f e. e ≡ of_items f };

    fn from(fault: ItemFault) -> Self {
        match fault {
            ItemFault::OutOfMemory => RunFault::OutOfMemory,
            fault => RunFault::Info {
                fault: InfoFault::Item(fault),
            },
        }
    }
}
