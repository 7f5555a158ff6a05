//! What every crate of `textpoke` stands on: the outside of a program as a trait, with an implementation in memory, a
//! bounded line of text, numbers and words.
#![tactic(auto)]

pub mod host;
pub mod line;
pub mod memory;
pub mod number;
mod store;
pub mod words;

pub use host::{AskedBy, Host, ReadFail, WriteFail};
pub use line::{CodeBytes, Line, code_bytes, put_bytes, put_dec, put_hex, put_text};
pub use memory::MemoryHost;
pub use number::{read_dec, read_hex};
use std::alloc::{AllocError, AllocFailed};
use thiserror::Error;
pub use words::next_word;

/// Memory for a value wasn't there.
#[derive(Clone, Copy, Debug, PartialEq, Eq, Error)]
#[error("no memory")]
pub struct NoMemory;

impl From<AllocError> for NoMemory {
    fn from(_failed: AllocError) -> NoMemory {
        NoMemory
    }
}

impl<T: Drop> From<AllocFailed<T>> for NoMemory {
    fn from(_failed: AllocFailed<T>) -> NoMemory {
        NoMemory
    }
}
