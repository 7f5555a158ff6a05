//! Tests of `script_text`: scripts of a small module, and why others are refused.
#![tactic(auto)]

#[cfg(test)]
mod tests;
