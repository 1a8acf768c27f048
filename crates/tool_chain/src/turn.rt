ghost use Rattle.std.specs.Prelude.{◌≡◌};
ghost use Rattle.tool_chain.specs.Memory.{code_of};

/// How a child in memory behaves.
#[derive(Clone, Copy, Debug, PartialEq, Eq)]
pub enum ToolTurn {
    /// It makes its output and ends with status 0.
    Good,
    /// It makes its output and ends with this status.
    Status(u8),
    /// It makes no output and ends with status 0.
    NoOutput,
    /// It does not start.
    StartFails,
}

/// The status that a child ends with which has started and can do its job.
pub(crate) fn code_of(turn: ToolTurn) -> u8
    ensures { result ≡ code_of turn }
{
    match turn {
        ToolTurn::Status(code) => code,
        ToolTurn::Good | ToolTurn::NoOutput | ToolTurn::StartFails => 0,
    }
}
