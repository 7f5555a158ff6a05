//! What the text is made of.
use x64_subset::Insn;

/// What begins at an address of the text.
#[derive(Clone, Copy, Debug, PartialEq, Eq)]
pub enum Unit {
    /// Nothing.
    Nothing,
    /// A plain instruction, with its length in bytes.
    Plain(Insn, u8),
    /// The site with this number, which isn't foreign.
    Site(u32),
}

/// A way from one place to another: of a jump or call, of a key to its function, of a function to itself.
#[derive(Clone, Copy, Debug, PartialEq, Eq)]
pub struct Aim {
    pub from: u64,
    pub to: u64,
}
