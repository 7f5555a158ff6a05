//! Laws of processors that fetch from shared words: functions that do nothing, whose contracts are the laws.
ghost use Rattle.live_engine.specs.LiveCpu.{NewCpusArePaired};

/// A new processor that stands at a start is paired with every seat that hasn't left.
pub fn new_cpus_are_paired()
    ensures { NewCpusArePaired }
{}
