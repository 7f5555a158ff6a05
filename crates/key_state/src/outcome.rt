//! How an update ends.

use poke_batch::Clash;

/// How an update ends where each earlier one has returned.
#[derive(Debug, PartialEq, Eq, Drop)]
pub enum Outcome {
    /// It is done; how many sites were changed.
    Done(u32),
    /// The key's count doesn't allow the command; the count. Nothing has changed.
    Count(u32),
    /// A site that would change is foreign; the first of them, by its address, with what the text has there and what was
    /// expected. Nothing has changed.
    Clash(Clash),
}
