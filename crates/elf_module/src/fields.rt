//! The numbers of a file, the lowest byte first.
ghost use Rattle.std.specs.Prelude.{◌≡◌, ◌≤◌, ◌<◌, ◌+◌, ◌↔◌, length, IsTrue};
ghost use Rattle.elf_module.specs.Elf.{field};

use byteorder::{ByteOrder, LittleEndian};

/// The byte at an offset.
#[tactic(auto, unfolding(crate::specs::Elf::field))]
pub(crate) fn u8_at(bytes: &[u8], at: usize) -> u8
    requires { at + 1 ≤ length bytes.now }
    ensures { result ≡ field 1 at bytes.now }
{
    bytes[at]
}

/// The number in the two bytes at an offset.
#[tactic(auto, unfolding(crate::specs::Elf::field))]
pub(crate) fn u16_at(bytes: &[u8], at: usize) -> u16
    requires { at + 2 ≤ length bytes.now }
    ensures { result ≡ field 2 at bytes.now }
{
    LittleEndian::read_u16(&bytes[at..])
}

/// The number in the four bytes at an offset.
#[tactic(auto, unfolding(crate::specs::Elf::field))]
pub(crate) fn u32_at(bytes: &[u8], at: usize) -> u32
    requires { at + 4 ≤ length bytes.now }
    ensures { result ≡ field 4 at bytes.now }
{
    LittleEndian::read_u32(&bytes[at..])
}

/// The number in the eight bytes at an offset.
#[tactic(auto, unfolding(crate::specs::Elf::field))]
pub(crate) fn u64_at(bytes: &[u8], at: usize) -> u64
    requires { at + 8 ≤ length bytes.now }
    ensures { result ≡ field 8 at bytes.now }
{
    LittleEndian::read_u64(&bytes[at..])
}

/// Whether n bytes at an offset end past a length. The sum doesn't wrap.
pub(crate) fn ends_past(offset: u64, size: u64, len: u64) -> bool
    ensures { IsTrue result ↔ (len < offset + size) }
{
    size > len || offset > len - size
}
