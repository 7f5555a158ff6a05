//! The turns of a processor.

use x64_subset::{Insn, Mark};

/// What a processor's next turn is.
#[derive(Clone, Copy, Debug, PartialEq, Eq)]
pub enum TurnKind {
    /// It stands where no patched site begins.
    Plain,
    /// It stands at a patched site, and fetches.
    At,
    /// It hit a breakpoint, and runs its handler.
    Handle,
    /// It has ended.
    Tick,
}

/// What a turn without the handler did.
#[derive(Clone, Copy, Debug, PartialEq, Eq)]
pub enum Stepped {
    /// A plain instruction was done.
    Plain(Mark),
    /// An instruction was done at the patched site that begins at an address.
    Pass { at: u64, insn: Insn, mark: Mark },
    /// A breakpoint was hit.
    Trapped,
    /// No instruction was there: the processor ends in a fault.
    Torn,
}
