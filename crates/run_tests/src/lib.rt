//! Tests of `run`, `replay` and `bench`, each over a host in memory: what no contract says, with values from outside.
#![tactic(auto)]

#[cfg(test)]
mod benches;
#[cfg(test)]
mod frame;
#[cfg(test)]
mod replays;
#[cfg(test)]
mod runs;
