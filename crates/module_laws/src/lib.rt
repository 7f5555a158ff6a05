//! Laws of accepted modules: functions that do nothing, whose contracts are the laws.
#![tactic(auto)]

ghost use Rattle.module_image.specs.Command.{CommandsLeadWell};
ghost use Rattle.module_image.specs.Flows.{FunctionsAreStarts, PatchedSitesFlow, PlainInstructionsFlow, SitesAreStarts, StartsHaveUnits};
ghost use Rattle.module_image.specs.Held.{FirstStatesLeadWell, ForeignSitesAreTheFiles, ForeignSitesHoldNoForm, LengthIsTheFiles, OtherBytesAreTheFiles, SitesHoldWhatTheyWant, WantedFormsReach};
ghost use Rattle.module_image.specs.Lent.{CountsFit, KeyNamesAreKnown, SitesAreLaidOut, TraceSitesAreFound, TraceSitesHaveATracer};

/// A plain instruction leads a processor from a start to a start: where it jumps, where it goes on, and where it
/// returns to later.
pub fn plain_instructions_flow()
    ensures { PlainInstructionsFlow }
{}

/// So does the form that a site wants which isn't foreign, whatever counts the keys have and whatever starts the
/// functions are.
pub fn patched_sites_flow()
    ensures { PatchedSitesFlow }
{}

/// Functions are starts.
pub fn functions_are_starts()
    ensures { FunctionsAreStarts }
{}

/// A site that isn't foreign begins at a start, at which no plain instruction begins.
pub fn sites_are_starts()
    ensures { SitesAreStarts }
{}

/// The form that a site wants reaches its target, and has the site's length, also where the site is foreign.
pub fn wanted_forms_reach()
    ensures { WantedFormsReach }
{}

/// After early writing a site that isn't foreign holds what it wants with the keys as the file has them.
pub fn sites_hold_what_they_want()
    ensures { SitesHoldWhatTheyWant }
{}

/// A foreign site holds no form that it ever wants, so an update that would change it clashes.
pub fn foreign_sites_hold_no_form()
    ensures { ForeignSitesHoldNoForm }
{}

/// The functions that keys have in the file are starts.
pub fn first_states_lead_well()
    ensures { FirstStatesLeadWell }
{}

/// At a start a patched site begins or a plain instruction, and never both.
pub fn starts_have_units()
    ensures { StartsHaveUnits }
{}

/// What a command gives to a static call's key leads well, as the functions that keys have in the file do.
pub fn commands_lead_well()
    ensures { CommandsLeadWell }
{}

/// All bytes of the text that aren't those of a patched site are the file's, and it has as many.
pub fn other_bytes_are_the_files()
    ensures bytes { OtherBytesAreTheFiles }
    ensures length { LengthIsTheFiles }
{}

/// A foreign site holds what the file has there.
pub fn foreign_sites_are_the_files()
    ensures { ForeignSitesAreTheFiles }
{}

/// The sites, at most 1,024, ascend, share no byte and lie in the text, of which no address wraps; the key of each is
/// one of the keys, at most 1,024, of the class that the site asks for.
pub fn sites_are_laid_out()
    ensures { SitesAreLaidOut }
{}

/// What a key's name stands for is the number of a key of its class.
pub fn names_are_known()
    ensures { KeyNamesAreKnown }
{}

/// What is found for a function is the number of a trace site.
pub fn trace_sites_are_found()
    ensures { TraceSitesAreFound }
{}

/// The count that a static key has in the file is below 2^31.
pub fn counts_fit()
    ensures { CountsFit }
{}

/// Where there is a trace site there is a tracer, which is a start, as each function is.
pub fn traced_sites_have_one()
    ensures { TraceSitesHaveATracer }
{}
