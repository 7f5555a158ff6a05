//! Tests of `check` on modules that it refuses, over a host in memory: what no contract says, with values from
//! outside. `frame` runs it on a file.
#![tactic(auto)]

#[cfg(test)]
mod frame;
#[cfg(test)]
mod order;
#[cfg(test)]
mod refused;
#[cfg(test)]
mod texts;
