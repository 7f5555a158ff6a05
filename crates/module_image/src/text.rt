//! The text of a module.
ghost use Rattle.std.specs.Prelude.{◌≡◌, ◌≤◌, ◌+◌, ◌<◌, length};
ghost use Rattle.module_names.specs.Entries.{length_at};

use crate::Site;
use x64_subset::decode;

/// The text as the file has it.
#[derive(Clone, Copy, Debug, PartialEq, Eq)]
pub struct Text<'a> {
    /// The index of its section.
    pub index: u16,
    /// The address of its first byte.
    pub base: u64,
    /// Its bytes.
    pub bytes: &'a [u8],
}

/// The text once its early forms are written, and its sites.
#[derive(Clone, Copy, Debug, PartialEq, Eq)]
pub struct Code<'a> {
    /// The address of its first byte.
    pub base: u64,
    /// Its bytes.
    pub bytes: &'a [u8],
    /// Its sites, ascending.
    pub sites: &'a [Site],
}

impl Text<'_> {
    /// How many bytes the instruction at an address of the text has; 0 where none stands there.
    pub fn length_at(&self, at: u64) -> u8
        requires from { self.now.base ≤ at }
        requires to { at ≤ self.now.base + length self.now.bytes.now }
        ensures { result ≡ length_at self.now.base self.now.bytes.now at }
    {
        match decode(at, &self.bytes[(at - self.base) as usize..]) {
            Ok((_, len)) => len,
            Err(_) => 0,
        }
    }
}
