//! Laws of runs and replays: functions that do nothing, whose contracts are the laws.
ghost use Rattle.recorded_run.specs.Laws.{LegalJournalsAreReplayed, LegalRunsAreWhole, ReplaysAreOne, RunsAreReplayed, TalliesAreOne};

/// The journal of every legal list of events is replayed as these events, and is refused at no line. So every interleaving that
/// may come can be written by hand and replayed.
pub fn legal_journals_are_replayed()
    ensures { LegalJournalsAreReplayed }
{}

/// A text is replayed as one list of events, and only where it is their journal.
pub fn replays_are_one()
    ensures { ReplaysAreOne }
{}

/// What a run wrote is replayed as the run's events, so the same is printed.
pub fn runs_are_replayed()
    ensures { RunsAreReplayed }
{}

/// The headline: of every legal list of events of an accepted module and a script of it the trace is the one of the machine that
/// knows whole instructions alone; each pass is the old or the new instruction whole; within an update never the old one after
/// the new; after its return only the new one; and at the end each site holds what it should.
pub fn legal_runs_are_whole()
    ensures { LegalRunsAreWhole }
{}

/// The tallies of tracers whose rules are told are determined by the events. So a journal that is replayed with tracers like
/// those of the run prints the same bytes.
pub fn tallies_are_one()
    ensures { TalliesAreOne }
{}
