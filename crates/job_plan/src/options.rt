//! What words say of the jobs that are made of items.

use fmt_sort::SortSpec;
use job_steps::ExtRule;
use sel_eval::Streams;
use sel_lang::Sel;
use text_base::Text;
use tpl_lang::Template;

/// What words say of choosing, naming and making the files of items.
#[derive(Drop)]
pub struct PlanOptions {
    pub sel: Sel,
    pub sort: SortSpec,
    pub streams: Streams,
    /// The template of names.
    pub template: Template,
    /// What stands for a value that is not there.
    pub na: Text,
    pub first_number: u64,
    /// Whether names are of ASCII alone.
    pub restricted: bool,
    /// How many characters the last component of a name may have before its extension; with 0 any.
    pub trim: usize,
    pub remux: Vec<ExtRule>,
    /// The rules by which audio is extracted, where it is; without a rule it is kept as well as it can be.
    pub audio: Option<Vec<ExtRule>>,
    /// The commands that are run for each finished file.
    pub exec: Vec<Template>,
    pub prints: Vec<Template>,
    /// The program that merges and converts files.
    pub tool: Text,
    /// The name of the archive.
    pub archive: Option<Text>,
}
