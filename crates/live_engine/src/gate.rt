//! Where a caller may hold the workers of a live run.

/// Is asked to pass before each turn that a worker does beside the others. It may hold the worker, and has to return.
pub trait Gate {
    /// Worker `who` is about to begin its turn number `turn`, counted from 1. The thread that patches is worker 0, and
    /// processor c is worker c + 1.
    fn pass(&self, who: u8, turn: u32);
}

/// Holds nobody.
#[derive(Clone, Copy, Debug)]
pub struct OpenGate;

impl Gate for OpenGate {
    fn pass(&self, _who: u8, _turn: u32) {}
}
