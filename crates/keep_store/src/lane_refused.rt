use folder_base::StoreFault;

/// A lane that was not opened: its folder, and why.
#[derive(Debug, Drop)]
pub struct LaneRefused<F> {
    pub folder: F,
    pub fault: StoreFault,
}
