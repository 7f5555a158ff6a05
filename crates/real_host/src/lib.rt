//! The host of a running program: the files of the system, standard output and standard error.
#![tactic(auto)]

mod real;
mod streams;

pub use real::RealHost;
