//! Laws of scripts: functions that do nothing, whose contracts are the laws.
ghost use Rattle.script_text.specs.Laws.{ScriptsAreOfTheirModules};

use module_laws::{names_are_known, trace_sites_are_found};

/// Every script that is read is of its module: it is within the limits, its processors start at functions, and its
/// commands are of the module.
pub fn scripts_are_of_their_modules()
    ensures { ScriptsAreOfTheirModules }
{
    names_are_known();
    trace_sites_are_found();
}
