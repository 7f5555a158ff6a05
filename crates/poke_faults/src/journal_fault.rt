//! Why a journal file is refused.

use thiserror::Error;

/// How many bytes a journal file may have.
pub const JOURNAL_LIMIT: u64 = 268_435_456;

/// The first thing that is wrong with a journal file.
#[derive(Clone, Copy, Debug, PartialEq, Eq, Error)]
pub enum JournalRefused {
    /// The file has more bytes than a journal may have.
    #[error("more than {JOURNAL_LIMIT} bytes")]
    TooLong,
    /// Its first line that can't be, counted from 1 with the header: it is no event's line, or its event may not come there, or
    /// it is one past the last, where the script isn't finished.
    #[error("line {0}")]
    Line(u64),
}
