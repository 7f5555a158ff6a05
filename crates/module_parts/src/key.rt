//! The keys of a module.

/// What a key switches.
#[derive(Clone, Copy, Debug, PartialEq, Eq)]
pub enum KeyClass {
    /// A static key, whose count switches jumps (Linux: `struct static_key`).
    Jump,
    /// A static call's key, which has a function (Linux: `struct static_call_key`).
    Call,
}

/// A key of a module. One address may be a key of each class; these are two keys.
#[derive(Clone, Copy, Debug, PartialEq, Eq)]
pub struct Key {
    pub class: KeyClass,
    /// The address of its 16 bytes.
    pub at: u64,
    /// What it holds in the file: a count, 0 to 2147483647; or a function's address, 0 where it has none.
    pub start: u64,
}
