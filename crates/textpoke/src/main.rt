//! `textpoke`: shows and proves how x86-64 instructions are changed while processors run them.
#![tactic(auto)]

mod program;
#[cfg(test)]
mod real_tests;
#[cfg(test)]
mod tests;

use crate::program::run;
use real_host::RealHost;
use std::env;
use std::process::ExitCode;

fn main(rt: HostRuntime) -> ExitCode {
    run(&rt, env::args(&rt), &mut RealHost::new(&rt))
}
