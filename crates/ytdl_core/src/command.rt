ghost use Rattle.std.specs.Prelude.{◌≡◌, ◌⊎◌, ◌≤◌, ℕ, [], false, Ok, Err, IfOk, IfErr, length, map};
ghost use Rattle.info_item.specs.Items.{entries_of};
ghost use Rattle.info_tree.specs.Plain.{plain};
ghost use Rattle.info_tree.specs.Reading.{most_bytes};
ghost use Rattle.job_plan.specs.Views.{plain_entry};
ghost use Rattle.word_list.specs.Views.{plain_plan};
ghost use Rattle.word_list.specs.declared.fault.WordsFault.TheVariants as faults;
ghost use Rattle.ytdl_core.specs.declared.run_fault.Which.TheVariants as which;
ghost use Rattle.ytdl_core.specs.Information.{HaveEntries};
ghost use Rattle.ytdl_core.specs.Lines.{TellsLine};
ghost use Rattle.ytdl_core.specs.Run.{IsExact, IsOfWords, IsRead, IsReported, IsTold, SinkFails, SourceFails};
ghost use Rattle.ytdl_core.specs.Steps.{highest_number, HasEntries, IsExactOf, IsFaultOfTree, IsUntold};
ghost use Rattle.ytdl_core.specs.Texts.{fault_line};
ghost use Rattle.ytdl_core.specs.Views.{plain_command};
ghost use Rattle.ytdl_core.specs.Words.{words_of};

use crate::built::{Command, command_of};
use crate::fault_line::fault_line;
use crate::lines::chunks;
use crate::reading::read_file;
use crate::report::{Report, report_of};
use crate::run_fault::RunFault;
use crate::sink::Sink;
use crate::source::InfoSource;
use crate::writing::write;
use info_item::read_items;
use info_tree::{Tree, read_tree};
use job_plan::{JobOr, PlanOptions, make_jobs};
use std::alloc::Global;
use text_base::Text;
use word_list::{OptionFault, WordsFault, read_words};

/// Does what the words ask for: reads the information that they name, makes the jobs of its items, and prints what is asked of each.
///
/// A fault's own line that cannot be written leaves the fault the answer. Want of memory may come at any time.
pub fn run<I: InfoSource, O: Sink, E: Sink>(
    alloc: Global,
    words: &Vec<Text>,
    info: &mut I,
    out: &mut O,
    err: &mut E,
) -> Result<Report, RunFault>
    requires { I.is_open info.old ≡ false }

    // Which word is at fault; then no object is touched but for the fault's line.
    ensures words { IsOfWords words.now.items info.old info.new out.old out.new result }

    // An answer is that of the file's bytes: the ends of the entries of its items, or its fault.
    ensures report { IfOk result (IsReported words.now.items (I.file info.old)
        (O.written out.old) (O.written out.new) (E.written err.old) (E.written err.new)) }
    ensures exact { IsExact words.now.items (I.file info.old) result }

    // What is printed where there is no report, and how far the source was read.
    ensures told { IfErr result (IsTold words.now.items (I.file info.old)
        (O.written out.old) (O.written out.new) (E.written err.old) (E.written err.new)
        (E.faults err.old) (E.faults err.new) (E.refusals err.old) (E.refusals err.new)) }
    ensures read { IsRead (I.file info.old) (I.left info.new) result }

    // No object is blamed that did not fail in this call.
    ensures source { SourceFails words.now.items (I.file info.old) (I.is_steady info.old)
        (I.faults info.old) (I.faults info.new) result }
    ensures out { SinkFails which.Out (O.is_steady out.old)
        (O.faults out.old) (O.faults out.new) result }
    ensures err { SinkFails which.Err (E.is_steady err.old)
        (E.faults err.old) (E.faults err.new) result }
{
    match answer(alloc, words, info, out, err) {
        Ok(report) => Ok(report),
        Err(fault) => {
            tell(&fault, err);
            Err(fault)
        }
    }
}

/// Writes the line of a fault, as far as that can be done.
fn tell<E: Sink>(fault: &RunFault, err: &mut E)
    ensures line { TellsLine (fault_line fault.now) (E.written err.old) (E.written err.new)
        (E.faults err.old) (E.faults err.new) (E.refusals err.old) (E.refusals err.new) }
    ensures silent { fault_line fault.now ≡ [] → err.new ≡ err.old }
{
    let line = fault_line(fault);
    if !line.is_empty() {
        let _ = err.put(line.as_bytes());
    }
}

/// What the words ask for, without the line of a fault.
fn answer<I: InfoSource, O: Sink, E: Sink>(
    alloc: Global,
    words: &Vec<Text>,
    info: &mut I,
    out: &mut O,
    err: &mut E,
) -> Result<Report, RunFault>
    requires { I.is_open info.old ≡ false }
    ensures words { IsOfWords words.now.items info.old info.new out.old out.new result }
    ensures report { IfOk result (IsReported words.now.items (I.file info.old)
        (O.written out.old) (O.written out.new) (E.written err.old) (E.written err.new)) }
    ensures exact { IsExact words.now.items (I.file info.old) result }
    ensures untold { IfErr result (IsUntold words.now.items (I.file info.old)
        (O.written out.old) (O.written out.new) (E.written err.old) (E.written err.new)) }
    ensures read { IsRead (I.file info.old) (I.left info.new) result }
    ensures source { SourceFails words.now.items (I.file info.old) (I.is_steady info.old)
        (I.faults info.old) (I.faults info.new) result }
    ensures out { SinkFails which.Out (O.is_steady out.old)
        (O.faults out.old) (O.faults out.new) result }
    ensures err { SinkFails which.Err (E.is_steady err.old)
        (E.faults err.old) (E.faults err.new) result }
    ensures later { E.refusals err.old ≤ E.refusals err.new }
{
    let command = match read_command(alloc, words) {
        Ok(command) => command,
        Err(WordsFault::Bad { word, fault }) => return Err(RunFault::Options { word, fault }),
        Err(WordsFault::OutOfMemory) => return Err(RunFault::OutOfMemory),
    };
    let bytes = read_file(alloc, info, command.info.as_str())?;
    let entries = read_entries(alloc, &command.plan, &bytes)?;
    let report = report_of(alloc, &entries)?;
    let chunks = chunks(alloc, command.quiet, &entries)?;
    write(&chunks, out, err)?;
    Ok(report)
}

/// The command that words ask for. What is not built is told at the number of words.
#[tactic(auto, unfolding(crate::specs::Words::words_of))]
fn read_command(alloc: Global, words: &Vec<Text>) -> Result<Command, WordsFault>
    ensures command { IfOk result (λ command. words_of words.now.items ≡ Ok (plain_command command)) }
    ensures fault { IfErr result (λ e. (e ≡ faults.OutOfMemory) ⊎ (words_of words.now.items ≡ Err e)) }
{
    let options = read_words(alloc, words)?;
    match command_of(options) {
        Some(command) => Ok(command),
        None => Err(WordsFault::Bad {
            word: words.len(),
            fault: OptionFault::NotBuilt,
        }),
    }
}

/// The entries of the items that an information file has, by its bytes.
fn read_entries(alloc: Global, plan: &PlanOptions, bytes: &[u8]) -> Result<Vec<JobOr>, RunFault>
    requires { plan.now.first_number ≤ highest_number }
    ensures entries { IfOk result (λ entries.
        HaveEntries (map plain_entry entries.items) (plain_plan plan.now) bytes.now) }
    ensures exact { IsExactOf bytes.now result }
{
    let tree = read_tree(alloc, bytes)?;
    tree_entries(alloc, plan, &tree)
}

/// The entries of the items that a tree has.
fn tree_entries(alloc: Global, plan: &PlanOptions, tree: &Tree) -> Result<Vec<JobOr>, RunFault>
    requires number { plan.now.first_number ≤ highest_number }
    requires few { length (entries_of (plain tree.now)) ≤ most_bytes }
    ensures entries { IfOk result (λ entries.
        HasEntries (map plain_entry entries.items) (plain_plan plan.now) (plain tree.now)) }
    ensures fault { IfErr result (IsFaultOfTree (plain tree.now)) }
{
    let items = read_items(alloc, tree)?;
    Ok(make_jobs(alloc, &items, plan)?)
}
