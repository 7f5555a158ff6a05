//! The instructions of the simulated processors: how they are spelt in bytes, and what each does.
#![tactic(auto)]

mod arithmetic;
mod condition;
mod effect;
mod encode;
mod flow;
mod insn;
pub mod laws;
mod operation;
mod proc;
mod reading;

pub use effect::execute;
pub use insn::{AluOp, Insn, Undecoded};
pub use proc::{FaultKind, Life, Mark, Proc};
pub use reading::decode;
