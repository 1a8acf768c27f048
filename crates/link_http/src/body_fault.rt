use folder_base::StoreFault;

/// Which call failed while a body was taken.
#[derive(Clone, Copy)]
pub enum BodyFault {
    /// `recv`.
    Recv,
    /// The taker refused a piece.
    Store { fault: StoreFault },
}
