//! Tests of `live_text`: one thread patches a site while a processor fetches.
#![tactic(auto)]

#[cfg(test)]
mod tests;
