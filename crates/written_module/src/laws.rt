//! Laws on written modules: functions that do nothing, whose contracts are the laws.
ghost use Rattle.written_module.specs.Written.{WrittenReadsBack};

/// The file that is written of a plan is at most as long as a module may be and is read, and its sections, table
/// entries, symbols and keys are the plan's, in the plan's order.
pub fn written_reads_back()
    ensures { WrittenReadsBack }
{}
