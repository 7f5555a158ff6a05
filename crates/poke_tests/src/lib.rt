//! Tests of the whole program, each command over a host in memory: what no contract says, with values
//! from outside. `frame` runs the rows of a table.
#![tactic(auto)]

#[cfg(test)]
mod checks;
#[cfg(test)]
mod frame;
#[cfg(test)]
mod makes;
#[cfg(test)]
mod other_words;
#[cfg(test)]
mod plans;
#[cfg(test)]
mod shows;
#[cfg(test)]
mod wants;
#[cfg(test)]
mod written;
