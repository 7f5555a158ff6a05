//! Laws on generated modules: functions that do nothing, whose contracts are the laws.
ghost use Rattle.generated_module.specs.Accepted.{GeneratedAreAccepted};
ghost use Rattle.generated_module.specs.Bench.{BenchScriptsAreRead};

/// No condition of a refusal of a module holds of the file that is written of the plan of 10 to 1,000 blocks, so
/// that file is accepted wherever there is memory.
pub fn generated_are_accepted()
    ensures { GeneratedAreAccepted }
{}

/// A fixed script is read in every module that is accepted of such a file: two processors start in `main`, and its
/// commands name the module's four keys.
pub fn bench_scripts_are_read()
    ensures { BenchScriptsAreRead }
{}
