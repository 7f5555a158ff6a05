//! What the states of legal journals have: functions that do nothing, whose contracts are the laws.
ghost use Rattle.switching.specs.StateLaws.{StatesAreReady};

/// In every state that a legal prefix leads to, what the next event asks of the parts of the machine is there: keys have states
/// of the module, a due byte is one of the text, the changes of the update in front can be poked, turns are left of the `run`
/// line in front, and no more updates have begun than a script may have.
pub fn states_are_ready()
    ensures { StatesAreReady }
{}
