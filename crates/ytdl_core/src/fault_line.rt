ghost use Rattle.std.specs.Prelude.{◌≡◌, ◌++◌, ◌+◌, ◌≤◌, codes, decimal, length};
ghost use Rattle.ytdl_core.specs.Texts.{fault_line, job_text, option_text};
ghost use Rattle.ytdl_core.specs.declared.run_fault.InfoFault.TheVariants as info;
ghost use Rattle.ytdl_core.specs.declared.run_fault.RunFault.TheVariants as fault;

use crate::run_fault::{InfoFault, RunFault};
use arrayvec::ArrayString;
use info_item::ItemFault;
use info_tree::TreeFault;
use itoa::Buffer;
use job_plan::JobFault;
use word_list::OptionFault;

/// A line of a fault: at most 40 bytes of text, and a number.
pub type Line = ArrayString<80>;

/// The line of a fault; none for a sink that failed and for want of memory.
pub fn fault_line(fault: &RunFault) -> Line
    ensures { result.bytes ≡ fault_line fault.now }
{
    match fault {
        RunFault::Options { word, fault } => option_line(*word, *fault),
        RunFault::Info { fault } => match fault {
            InfoFault::Tree(fault) => tree_line(*fault),
            InfoFault::Item(fault) => item_line(*fault),
        },
        RunFault::InfoRead => unnumbered("ERROR: info: reading failed\n"),
        RunFault::Write { .. } | RunFault::OutOfMemory => unnumbered(""),
    }
}

fn option_line(word: usize, option: OptionFault) -> Line
    ensures { result.bytes ≡ fault_line (fault.Options word option) }
{
    let mut digits = Buffer::new();
    let mut line = Line::new();
    line.push_str("ERROR: word ");
    line.push_str(digits.format(word as u128 + 1));
    line.push_str(": ");
    line.push_str(option_text(option));
    line.push_str("\n");
    line
}

fn option_text(option: OptionFault) -> &'static str
    ensures text { result.now ≡ option_text option }
    ensures short { length result.now ≤ 20 }
{
    match option {
        OptionFault::Unknown => "unknown option",
        OptionFault::NeedsValue => "value missing",
        OptionFault::BadValue => "bad value",
        OptionFault::Selector(_) => "bad selector",
        OptionFault::Sort(_) => "bad sort field",
        OptionFault::Template(_) => "bad template",
        OptionFault::NoInfo => "no --load-info-json",
        OptionFault::Extra => "unexpected word",
        OptionFault::TakesNone => "takes no value",
        OptionFault::NotBuilt => "not built",
    }
}

/// Why there is no job.
pub fn job_text(fault: JobFault) -> &'static str
    ensures { result.now ≡ job_text fault }
{
    match fault {
        JobFault::NoFormat => "requested format is not available",
        JobFault::Fill => "filled text is too long",
        JobFault::Path(_) => "bad file name",
        JobFault::NameLong => "file name is too long",
        JobFault::Clash { .. } => "file name is taken",
        JobFault::Pieces { .. } => "nothing to fetch",
        JobFault::TooMany => "more than 10000 choices",
    }
}

fn tree_line(tree: TreeFault) -> Line
    ensures { result.bytes ≡ fault_line (fault.Info (info.Tree tree)) }
{
    match tree {
        TreeFault::Syntax { at } => at_byte("ERROR: info: bad JSON at byte ", at),
        TreeFault::Depth { at } => at_byte("ERROR: info: too deep at byte ", at),
        TreeFault::Number { at, .. } => at_byte("ERROR: info: bad number at byte ", at),
        TreeFault::NotUtf8 { at } => at_byte("ERROR: info: not UTF-8 at byte ", at),
        TreeFault::TooLong => unnumbered("ERROR: info: too long\n"),
        TreeFault::OutOfMemory => unnumbered("ERROR: info: \n"),
    }
}

fn item_line(items: ItemFault) -> Line
    ensures { result.bytes ≡ fault_line (fault.Info (info.Item items)) }
{
    match items {
        ItemFault::NotItem { k } => item_number(k, " is no map\n"),
        ItemFault::NoId { k } => item_number(k, " has no id\n"),
        ItemFault::NoFormats { k } => item_number(k, " has no formats\n"),
        ItemFault::FormatId { k, .. } => item_number(k, " has a bad format\n"),
        ItemFault::OutOfMemory => unnumbered("ERROR: info: \n"),
    }
}

fn at_byte(text: &str, at: usize) -> Line
    requires { length text.now ≤ 39 }
    ensures { result.bytes ≡ text.now ++ (decimal at ++ codes "\n") }
{
    numbered(text, at as u128, "\n")
}

fn item_number(k: usize, text: &str) -> Line
    requires { length text.now ≤ 22 }
    ensures { result.bytes ≡ codes "ERROR: info: item " ++ (decimal (k + 1) ++ text.now) }
{
    numbered("ERROR: info: item ", k as u128 + 1, text)
}

fn numbered(before: &str, number: u128, after: &str) -> Line
    requires { length before.now + length after.now ≤ 40 }
    ensures { result.bytes ≡ before.now ++ (decimal number ++ after.now) }
{
    let mut digits = Buffer::new();
    let mut line = Line::new();
    line.push_str(before);
    line.push_str(digits.format(number));
    line.push_str(after);
    line
}

fn unnumbered(text: &str) -> Line
    requires { length text.now ≤ 80 }
    ensures { result.bytes ≡ text.now }
{
    let mut line = Line::new();
    line.push_str(text);
    line
}
