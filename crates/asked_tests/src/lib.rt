//! Tests of which files the program asks for, over a host that keeps their names.
#![tactic(auto)]

#[cfg(test)]
mod tests;
