//! Tests of what `poke_base` offers: what no contract says, with values from outside.
#![tactic(auto)]

#[cfg(test)]
mod lines;
#[cfg(test)]
mod memory;
#[cfg(test)]
mod numbers;
