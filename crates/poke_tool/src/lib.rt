//! `textpoke` as one call: the commands that show and prove how x86-64 instructions are changed
//! while processors run them, over a host that the caller hands in.
#![tactic(auto)]

mod command;
mod journal_file;
mod live;
mod replay;
mod run;
mod top;

pub use poke_faults::{Fault, JournalRefused, ModuleRefused, Refusal, ScriptRefused};
pub use poke_plan::PlanRefused;
pub use top::textpoke;
