//! Plan files: the one change that a file asks for, and its poke, a line for each write and each request.
#![tactic(auto)]

mod plan_line;
mod poke;

pub use plan_line::{OldBytes, Plan, PlanRefused, SiteBytes, read_plan};
pub use poke::{open_batch, print_poke};
