//! Why a run or a replay stopped.
ghost use Rattle.std.specs.Prelude.{◌≡◌};
ghost use Rattle.recorded_run.specs.declared.fault.RunFault.TheVariants.{Write as write_fault, Line as line_fault};

use poke_base::WriteFail;
use run_journal::BadLine;
use thiserror::Error;

/// Why a run or a replay stopped before its end.
#[derive(Clone, Copy, Debug, PartialEq, Eq, Error)]
pub enum RunFault {
    /// A line of the journal wasn't appended whole, or a piece of the trace wasn't printed whole.
    #[error("write failed")]
    Write,
    /// A line of the journal that is read, by its number from 1 on: it is no event's line, or its event may not come, or it is
    /// one past the last, where the script isn't finished.
    #[error("line {0}")]
    Line(u64),
}

impl From<WriteFail> for RunFault {
    ghost from_gives = { λ _ why. why ≡ write_fault };

    fn from(_failed: WriteFail) -> RunFault {
        RunFault::Write
    }
}

impl From<BadLine> for RunFault {
    ghost from_gives = { λ bad why. why ≡ line_fault bad.line };

    fn from(bad: BadLine) -> RunFault {
        RunFault::Line(bad.line)
    }
}
