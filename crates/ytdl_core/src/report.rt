ghost use Rattle.std.specs.Prelude.{◌≡◌, IfOk, map};
ghost use Rattle.std.specs.List.{list_all};
ghost use Rattle.job_plan.specs.Views.{plain_entry};
ghost use Rattle.ytdl_core.specs.Report.{Fits, simulated_end, status_of, is_shown};

use crate::run_fault::RunFault;
use job_plan::{JobFault, JobOr};
use std::alloc::Global;
use text_base::OutOfMemory;

/// What became of an entry.
#[derive(Clone, Copy, Debug, PartialEq, Eq)]
pub enum End {
    /// What is printed of its job was printed.
    Shown,
    /// There is no job.
    Fault(JobFault),
}

/// An entry's end, and the place of its item.
#[derive(Clone, Copy, Debug, PartialEq, Eq)]
pub struct JobEnd {
    pub item: usize,
    pub end: End,
}

/// The ends of all entries, in their order.
#[derive(Debug, Drop)]
pub struct Report {
    pub ends: Vec<JobEnd>,
}

/// The report of entries of which nothing is downloaded.
pub fn report_of(alloc: Global, entries: &[JobOr]) -> Result<Report, OutOfMemory>
    ensures { IfOk result (λ report. Fits (map plain_entry entries.now) report.ends.items) }
{
    let mut ends = Vec::new(alloc);
    for entry in entries {
        ends.push(simulated_end(entry))?;
    }
    Ok(Report { ends })
}

/// The end of an entry that is not downloaded.
fn simulated_end(entry: &JobOr) -> JobEnd
    ensures { result ≡ simulated_end (plain_entry entry.now) }
{
    match entry {
        JobOr::Job(job) => JobEnd {
            item: job.item,
            end: End::Shown,
        },
        JobOr::Fault { item, fault } => JobEnd {
            item: *item,
            end: End::Fault(*fault),
        },
    }
}

/// The status with which the program ends.
pub fn status(end: &Result<Report, RunFault>) -> u8
    ensures { result ≡ status_of end.now }
{
    match end {
        Ok(report) => { if all_shown(&report.ends) { 0 } else { 1 } }
        Err(RunFault::Options { .. }) => 2,
        Err(RunFault::Info { .. } | RunFault::InfoRead | RunFault::Write { .. }) => 1,
        Err(RunFault::OutOfMemory) => 70,
    }
}

fn all_shown(ends: &[JobEnd]) -> bool
    ensures { result ≡ list_all is_shown ends.now }
{
    ends.iter().all(|job| matches!(job.end, End::Shown))
}
