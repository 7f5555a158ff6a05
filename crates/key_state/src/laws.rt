//! Laws of commands and of the changes that they ask for: functions that do nothing, whose contracts are the laws.
ghost use Rattle.key_state.specs.Laws.{ChangesCanBePoked, ClashesAreForeign, CommandsKeepStates, FirstStatesAreOfTheModule, OutcomesGoOn, UpdatesKeepStates};

/// The states as the file has them are states of the module, and its text holds what they want.
pub fn first_states_are_of_the_module()
    ensures { FirstStatesAreOfTheModule }
{}

/// A command of the module that isn't refused leaves states of the module.
pub fn commands_keep_states()
    ensures { CommandsKeepStates }
{}

/// So does every update, however it ends.
pub fn updates_keep_states()
    ensures { UpdatesKeepStates }
{}

/// The changes between two states can be poked: they ascend, don't overlap, lie in the text, and have spellings of one size.
pub fn changes_can_be_poked()
    ensures { ChangesCanBePoked }
{}

/// Where each patched site holds what it wants, a change clashes exactly where its site is foreign.
pub fn clashes_are_foreign()
    ensures { ClashesAreForeign }
{}

/// The outcomes of commands go on: those of some and then of more are those of the first, and then those of the others from
/// the states that the first leave.
pub fn outcomes_go_on()
    ensures { OutcomesGoOn }
{}
