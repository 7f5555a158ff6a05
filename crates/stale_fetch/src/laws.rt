//! What the definitions of this crate mean in other words. The functions do nothing.
ghost use Rattle.stale_fetch.specs.Laws.{CandidatesAreValues, EachOnce};

/// The values that are listed since a number of writes are those that the byte had after that many
/// writes or more.
pub fn candidates_are_values()
    ensures law { CandidatesAreValues }
{}

/// No value is listed twice.
pub fn each_once()
    ensures law { EachOnce }
{}
