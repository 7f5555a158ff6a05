//! Modules to try things on: ELF64 files with the tables of patched sites, written from a plan.
#![tactic(auto)]

mod contents;
mod file;
mod gabi;
mod generation;
pub mod plan;
mod put;
mod sections;
mod tables;

pub use file::write;
pub use generation::generated;
pub use plan::{KeyStart, Name, Plan, PlanFunction, PlanKey, PlanSite};
