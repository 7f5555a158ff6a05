//! Tests of `check` on modules that it accepts, over a host in memory: what no contract says, with values from
//! outside. `frame` runs it on a file.
#![tactic(auto)]

#[cfg(test)]
mod accepted;
#[cfg(test)]
mod frame;
#[cfg(test)]
mod names;
#[cfg(test)]
mod sites;
