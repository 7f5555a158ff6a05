//! Tests of `elf_build` and `elf_module`: the file of a small module written and read, and what doesn't fit or is refused.
#![tactic(auto)]

#[cfg(test)]
mod building;
#[cfg(test)]
mod module;
#[cfg(test)]
mod reading;
