ghost use Rattle.std.specs.Prelude.{◌≡◌};
ghost use Rattle.piece_turn.specs.Turn.{has_failed};

use link_http::PieceFault;

/// How a piece ended.
#[derive(Clone, Copy, Debug, PartialEq, Eq)]
pub enum PieceEnd {
    /// All of it is there, after so many tries: none where it was complete before.
    Done { tries: u32 },
    /// The last of so many tries failed for this cause.
    Failed { tries: u32, cause: PieceFault },
    /// No worker began it, since another piece had failed.
    NotBegun,
}

impl PieceEnd {
    /// Whether the piece failed.
    pub fn has_failed(&self) -> bool
        ensures { result ≡ has_failed self.now }
    {
        matches!(self, PieceEnd::Failed { .. })
    }
}
