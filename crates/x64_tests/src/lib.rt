//! Tests of `x64_subset`: instructions by their bytes, and what each does, from the Intel SDM.
#![tactic(auto)]

#[cfg(test)]
mod effects;
#[cfg(test)]
mod reading;
