//! Why a script is refused.
ghost use Rattle.script_text.specs.declared.refused.ScriptError.TheVariants.{NoMemory};
ghost use Rattle.std.specs.Prelude.{◌≡◌};

use std::alloc::{AllocError, AllocFailed};
use thiserror::Error;

/// Why a line of a script is refused. `Word` comes before all others, and of the others the first that holds in the
/// order `LateCpu`, `NoCpu`, `Cpus`, `Number`, `Name`, `Updates`, `Drops`, `Turns` is the answer.
#[derive(Clone, Copy, Debug, PartialEq, Eq)]
pub enum ScriptWhy {
    /// There is no such command, or it has too few or too many words.
    Word,
    /// No `cpu` line comes before the first other command, or there is none in the script.
    NoCpu,
    /// A `cpu` line after another command.
    LateCpu,
    /// A 17th `cpu` line.
    Cpus,
    /// A number that is malformed or out of its range.
    Number,
    /// A name of no key of the class that the command asks for, of no function, or of a function without a trace site.
    Name,
    /// A 65th update.
    Updates,
    /// A 65th `drop` line.
    Drops,
    /// All `run` lines together have over 1,000,000 turns.
    Turns,
}

/// Why no script was read.
#[derive(Clone, Copy, Debug, PartialEq, Eq, Error)]
pub enum ScriptError {
    /// The number of the first refused line, counted from 1, and why. A script that ends without a `cpu` line is
    /// refused at one line past its last.
    #[error("line {line}: {why:?}")]
    Refused { line: u32, why: ScriptWhy },
    #[error("out of memory")]
    NoMemory,
}

impl From<AllocError> for ScriptError {
    ghost from_gives = { λ _ why. why ≡ NoMemory };

    fn from(_failed: AllocError) -> ScriptError {
        ScriptError::NoMemory
    }
}

impl<T: Drop> From<AllocFailed<T>> for ScriptError {
    ghost from_gives = { λ _ why. why ≡ NoMemory };

    fn from(_failed: AllocFailed<T>) -> ScriptError {
        ScriptError::NoMemory
    }
}
