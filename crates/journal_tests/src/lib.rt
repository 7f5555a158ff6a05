//! Tests of `run_journal`: how events are spelt, and how journals are read.
#![tactic(auto)]

#[cfg(test)]
mod reading;
#[cfg(test)]
mod spelling;
