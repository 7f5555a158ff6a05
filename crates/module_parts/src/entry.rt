//! What the tables say of the places that can be patched.

/// An entry of a module's tables: the address of an instruction, and how it is patched.
#[derive(Clone, Copy, Debug, PartialEq, Eq)]
pub struct Entry {
    /// The address of the instruction.
    pub at: u64,
    pub kind: EntryKind,
}

/// How the instruction at an entry is patched. A key is given by its address.
#[derive(Clone, Copy, Debug, PartialEq, Eq)]
pub enum EntryKind {
    /// A static key switches a jump to `target`; it stands while the key is on, where it is `likely` while it is off.
    Jump { target: u64, key: u64, likely: bool },
    /// A static call.
    Call { key: u64 },
    /// A static call in tail position, which is a jump.
    Tail { key: u64 },
    /// A call of the tracer.
    Trace,
}
