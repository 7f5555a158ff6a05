//! What the choice rule chooses: functions that do nothing, whose contracts are the laws.
ghost use Rattle.switching.specs.ChoiceLaws.{ChoiceIsThere, ChosenAreLegal, ChosenEnd, ChosenIsOne, ChosenPrefixesEnd, RunsAreThere};

/// Each event that the rule chooses may come in its place, and a journal that it chooses to the end of the script is legal.
pub fn chosen_are_legal()
    ensures { ChosenAreLegal }
{}

/// The rule chooses one journal: a module, a script and a seed make the same run whenever it is made.
pub fn chosen_is_one()
    ensures { ChosenIsOne }
{}

/// In each state that a legal prefix leads to the rule has a choice, until the script is finished.
pub fn choice_is_there()
    ensures { ChoiceIsThere }
{}

/// A journal that the rule chooses has at most `most_events` events: an update that waits goes on after at most 16 turns, or,
/// where it waits for processors that are in the handler, after at most 32.
pub fn chosen_end()
    ensures { ChosenEnd }
{}

/// So have the events that it has chosen at any time before the script is finished: no run goes on for ever.
pub fn chosen_prefixes_end()
    ensures { ChosenPrefixesEnd }
{}

/// Whatever the seed, the rule chooses a journal of every script of an accepted module: each choice is some event, and the script
/// is finished at some time.
pub fn runs_are_there()
    ensures { RunsAreThere }
{}
