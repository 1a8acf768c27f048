//! Laws of jobs.
ghost use Rattle.std.specs.Prelude.{List};
ghost use Rattle.job_plan.specs.Jobs.{AreJobs};
ghost use Rattle.job_plan.specs.Laws.{AreWhole, FamiliesApart};
ghost use Rattle.job_plan.specs.Plan.{Entry, Job};
ghost use Rattle.job_plan.specs.Views.{plain_plan};

use crate::options::PlanOptions;
use info_item::Item;

/// Law: the families of two jobs of one list share no name.
pub fn families_are_apart(_items: &[Item<'_>], _options: &PlanOptions)
    ensures { (entries : List (Entry Job)) → AreJobs (plain_plan _options.now) _items.now entries → FamiliesApart entries }
{}

/// Law: no name of a job stands for two files. Its steps can run one after another from what is fetched, the final name is its only component or
/// what its last output is published as, and the commands for the finished file leave none. No component is without a piece.
pub fn jobs_are_whole(_items: &[Item<'_>], _options: &PlanOptions)
    ensures { (entries : List (Entry Job)) → AreJobs (plain_plan _options.now) _items.now entries → AreWhole entries }
{}
