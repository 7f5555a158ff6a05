//! The sites of a module.

/// A place of the text that is patched, or that can't be because it holds something foreign.
#[derive(Clone, Copy, Debug, PartialEq, Eq)]
pub struct Site {
    /// The address of its first byte.
    pub at: u64,
    /// How many bytes it has: 2 or 5.
    pub len: u8,
    pub kind: SiteKind,
    /// Whether the file has something else there than one of the site's early forms. Such a site is never
    /// written, and its bytes are plain instructions.
    pub foreign: bool,
}

/// What a site is patched to. A key is given by its number, its place among the module's keys.
#[derive(Clone, Copy, Debug, PartialEq, Eq)]
pub enum SiteKind {
    /// A jump to the address `target` where the key's count is above 0, a NOP where it is 0; the other way
    /// round where it is `likely` (Linux: `jump_label.h`).
    Jump { target: u64, key: u32, likely: bool },
    /// A call of the key's function; a NOP where the key has none (Linux: `static_call.h`).
    Call { key: u32 },
    /// A jump to the key's function; RET where the key has none (Linux: `static_call.h`).
    Tail { key: u32 },
    /// A NOP, or a call of `ftrace_caller` while the site is traced (Linux: ftrace).
    Trace,
}
