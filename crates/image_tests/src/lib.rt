//! Tests of `module_image`: what an accepted module says of addresses and names.
#![tactic(auto)]

#[cfg(test)]
mod tests;
