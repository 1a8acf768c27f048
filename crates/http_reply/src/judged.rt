use crate::piece_fault::PieceFault;
use crate::plan::Plan;

/// What a final head says: the total, if it is told by now, and the plan or the cause.
#[derive(Clone, Copy, Debug, PartialEq, Eq)]
pub struct Judged {
    pub told: Option<u64>,
    pub plan: Result<Plan, PieceFault>,
}
