//! Scripts: plain lines that say what should happen to a module.
//!
//! A line feed ends each line; the last may lack it. Spaces, tabs and carriage returns separate words, which are any
//! other bytes. A line without a word, and one whose first word begins with `#`, is passed over, but counted. The
//! others are, with a key by its name in K, and a function by its name in F:
//! - `cpu F`: one more processor, which starts at the function. These 1 to 16 lines come first.
//! - `inc K`, `dec K`, `enable K`, `disable K`: an update of a static key.
//! - `call K F`, `call K -`: a static call's key is given the function, or none.
//! - `trace F`, `untrace F`: the trace site of the function; `trace *`, `untrace *`: all trace sites.
//! - `run N`: turns of the processors, 1 to 1,000,000, and no more than that together.
//! - `drop T`: the tracer at place T, 0 to 255.
//!
//! There are at most 64 updates and 64 `drop` lines. Numbers are 1 to 20 decimal digits.
#![tactic(auto)]

pub mod laws;
mod line;
mod lines;
mod meaning;
mod refused;
mod script;

pub use refused::{ScriptError, ScriptWhy};
pub use script::{Script, ScriptStep};
