//! What the byte machine and the switching machine have to do with one another, over every legal journal of every accepted
//! module and every script of it: functions that do nothing, whose contracts are the laws.
ghost use Rattle.switching.specs.Laws.{CandidatesAreAtMostTwo, CandidatesAreInTheTable, ChangesAreSeen, ClashesAreForeign, EndingsAreOutcomes, JournalsAreDone, NeverOldAfterNew, NothingIsTorn, OnlyTheNewAfterReturn, OtherBytesHaveOneCandidate, PassesAreWhole, SitesHoldWhatIsWanted, TracesAreSwitched};

/// Whatever bytes processors fetch while a text is patched under them, what is seen is what is seen where each site is
/// switched at once: over every legal journal, and over every prefix of one, the machine that knows only whole instructions is
/// defined, and shows the same lines.
pub fn traces_are_switched()
    ensures { TracesAreSwitched }
{}

/// After a whole journal every update and every drop of the script has begun in that machine too, and none is open.
pub fn journals_are_done()
    ensures { JournalsAreDone }
{}

/// Where no update is open, each patched site holds what its key, its function or its trace state prescribes, and every other
/// byte is as the module was accepted.
pub fn sites_hold_what_is_wanted()
    ensures { SitesHoldWhatIsWanted }
{}

/// A byte of a site that is being patched has, for each processor, the candidates of the table: what stood there after as many
/// rounds as the processor has taken requests, or after one more.
pub fn candidates_are_in_the_table()
    ensures { CandidatesAreInTheTable }
{}

/// Every other byte of the text has one candidate, the one that it holds.
pub fn other_bytes_have_one_candidate()
    ensures { OtherBytesHaveOneCandidate }
{}

/// So no byte has more than two candidates.
pub fn candidates_are_at_most_two()
    ensures { CandidatesAreAtMostTwo }
{}

/// No processor fetches bytes that are no instruction, none stands where no instruction begins, and no breakpoint is hit that
/// isn't one of the open update.
pub fn nothing_is_torn()
    ensures { NothingIsTorn }
{}

/// An update clashes with the bytes of the text exactly where a site that it changes is foreign, and at the first such site.
pub fn clashes_are_foreign()
    ensures { ClashesAreForeign }
{}

/// The endings of updates that a whole journal shows are the outcomes of the script's commands, in order: they depend neither on
/// the schedule nor on the bytes that were fetched.
pub fn endings_are_outcomes()
    ensures { EndingsAreOutcomes }
{}

/// Each pass that is shown is of a patched site, and is its old or its new instruction, whole, where the open update changes it,
/// and else the one that it wants.
pub fn passes_are_whole()
    ensures { PassesAreWhole }
{}

/// The old and the new instruction of a changed site are different.
pub fn changes_are_seen()
    ensures { ChangesAreSeen }
{}

/// Within one update a processor that has done a site's new instruction doesn't do the old one any more.
pub fn never_old_after_new()
    ensures { NeverOldAfterNew }
{}

/// Once an update has returned, and until the next one begins, every processor does what the sites want.
pub fn only_the_new_after_return()
    ensures { OnlyTheNewAfterReturn }
{}
