//! One processor: what its next turn is, what it fetches, what each turn does, and its lines.
#![tactic(auto)]

mod cpu;
mod fetch;
mod lines;
mod turn;

pub use cpu::Cpu;
pub use lines::{put_mark, put_pass, put_pass_words, put_stop};
pub use turn::{Stepped, TurnKind};
