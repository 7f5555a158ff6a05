//! What the keys of a module hold, which of its sites change by a command, and how updates end that are done one after
//! the other.
#![tactic(auto)]

mod count;
mod effect;
mod keys;
pub mod laws;
mod lines;
mod outcome;
mod settled;
mod writing;

pub use count::CountRefused;
pub use keys::Keys;
pub use lines::outcome_line;
pub use outcome::Outcome;
pub use settled::Settled;
