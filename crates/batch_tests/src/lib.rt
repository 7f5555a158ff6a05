//! Tests of `poke_batch` and `int3_handler`: what is due next, where a text clashes, chunks, and breakpoints on the way.
#![tactic(auto)]

#[cfg(test)]
mod chunks;
#[cfg(test)]
mod frame;
#[cfg(test)]
mod handler;
#[cfg(test)]
mod one_site;
