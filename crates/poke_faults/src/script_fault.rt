//! Why a script file is refused.

use script_text::ScriptWhy;
use thiserror::Error;

/// How many bytes a script file may have.
pub const SCRIPT_LIMIT: u64 = 65_536;

/// The first thing that is wrong with a script file.
#[derive(Clone, Copy, Debug, PartialEq, Eq, Error)]
pub enum ScriptRefused {
    /// The file has more bytes than a script may have.
    #[error("more than {SCRIPT_LIMIT} bytes")]
    TooLong,
    /// Its first line that is refused, counted from 1, and why. A script that ends without a `cpu` line is refused at one
    /// line past its last.
    #[error("line {line}: {why:?}")]
    Line { line: u32, why: ScriptWhy },
}
