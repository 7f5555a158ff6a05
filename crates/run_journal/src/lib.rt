//! The events of a run, how they are spelt in its journal, and how a journal is read.
#![tactic(auto)]

mod event;
pub mod laws;
mod letters;
mod reader;
mod reading;
mod spelling;

pub use event::Event;
pub use reader::{BadLine, Reader};
pub use spelling::{HEADER, line_of};
