//! Laws of a journal's lines: functions that do nothing, whose contracts are the laws.
ghost use Rattle.std.specs.Prelude.{◌≡◌};
ghost use Rattle.run_journal.specs.Laws.{LinesAreApart};
ghost use Rattle.run_journal.specs.Journals.{JournalsAreRead, PrefixesAreRead, LinesAreCounted, EventsAreOne, EndsAreOne, JournalsAreApart};
ghost use Rattle.run_journal.specs.Spelling.{header};

use crate::HEADER;

/// The line of an event tells which event it is and where it ends, so a journal is read in one way
/// alone. The events are those of at most 16 processors that fetch one to nine bytes.
pub fn lines_are_apart()
    ensures { LinesAreApart }
{}

/// The first line is that of the definition.
pub fn the_header()
    ensures { HEADER.now ≡ header }
{
    let _line = HEADER;
}

/// A text is read as a list of events, to its end, exactly where it is the journal of these events. So
/// reading gives back what was spelt, and spelling what was read.
///
/// At every moment on the way the text is the header, the lines of the events that were read, and what is
/// left; and of the lines that were taken one is the header, and each other an event's.
pub fn journals_are_read()
    ensures whole { JournalsAreRead }
    ensures prefix { PrefixesAreRead }
    ensures counted { LinesAreCounted }
{}

/// One text is read in one way: one event is read next, or the end is, and one state is after it. So
/// journals are equal only where their events are.
pub fn texts_are_read_in_one_way()
    ensures event { EventsAreOne }
    ensures end { EndsAreOne }
    ensures journal { JournalsAreApart }
{}
