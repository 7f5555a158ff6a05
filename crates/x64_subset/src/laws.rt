//! Laws of the instructions' spellings, and of what they do: functions that do nothing, whose contracts
//! are the laws.
ghost use Rattle.x64_subset.specs.Laws.{SpellingsAreApart, SpellingsAreUnique, FormsAreInstructions, ReadingIsSpelling, ShortReadings, UnknownReadings, WhatIsRead, SpeltAreListed, ListedAreSpelt, EndedStay};

/// No spelling is how a longer one begins, and no two instructions have one spelling.
pub fn spellings_are_apart()
    ensures { SpellingsAreApart }
{}

/// An instruction has at most one spelling at an address.
pub fn spellings_are_unique()
    ensures { SpellingsAreUnique }
{}

/// The form of a patched site is an instruction: its first bytes spell it.
pub fn forms_are_instructions()
    ensures { FormsAreInstructions }
{}

/// Of bytes an instruction is read exactly where they begin with its spelling, and its length is that of
/// the spelling.
pub fn reading_is_spelling()
    ensures { ReadingIsSpelling }
{}

/// Of bytes `Short` is read exactly where they are how a longer spelling begins.
pub fn short_readings()
    ensures { ShortReadings }
{}

/// Of bytes `Unknown` is read exactly where no spelling is how they begin, and they are how none begins.
pub fn unknown_readings()
    ensures { UnknownReadings }
{}

/// What is read, of any list of numbers, is an instruction of the subset with a length of 1 to 9, and no
/// longer than the list.
pub fn what_is_read()
    ensures { WhatIsRead }
{}

/// What is spelt is an instruction of the subset.
pub fn spelt_are_listed()
    ensures { SpeltAreListed }
{}

/// An instruction of the subset, whose numbers have room in its fields, is spelt at each address, but for
/// a jump or call whose displacement doesn't reach its target.
pub fn listed_are_spelt()
    ensures { ListedAreSpelt }
{}

/// A processor that a patched site's form ends stands where it stood.
pub fn ended_stay()
    ensures { EndedStay }
{}
