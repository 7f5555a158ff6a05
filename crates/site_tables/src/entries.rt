//! The entries of a module's tables (Linux: `jump_label.h`, `static_call_types.h`, ftrace).
ghost use Rattle.std.specs.Prelude.{◌≡◌, ◌≢◌, ◌==◌, ◌≤◌, ◌<◌, ◌+◌, ◌*◌, ◌/◌, ◌%◌, ◌^◌, length, MatchResult};
ghost use Rattle.elf_module.specs.Elf.{field};
ghost use Rattle.site_tables.specs.Entry.{entry_size, extended, relative, cleared, near, jump_at, call_at, trace_at};

use byteorder::{ByteOrder, LittleEndian};
use elf_module::Section;
use thiserror::Error;

/// Which table of a module.
#[derive(Clone, Copy, Debug, PartialEq, Eq)]
pub enum TableKind {
    /// `__jump_table`, 16 bytes an entry.
    Jump,
    /// `.static_call_sites`, 8 bytes an entry.
    Call,
    /// `__mcount_loc`, 8 bytes an entry.
    Trace,
}

/// A place where a static key switches a jump.
#[derive(Clone, Copy, Debug, PartialEq, Eq)]
pub struct JumpEntry {
    /// The address of the instruction.
    pub code: u64,
    /// Where the jump leads.
    pub target: u64,
    /// The address of the key.
    pub key: u64,
    /// Bit 0 of the key's field: the jump stands where the key is off.
    pub likely: bool,
    /// Bit 1 of the key's field.
    pub bit1: bool,
}

/// A place from where a static call is made.
#[derive(Clone, Copy, Debug, PartialEq, Eq)]
pub struct CallSite {
    /// The address of the instruction.
    pub addr: u64,
    /// The address of the key.
    pub key: u64,
    /// Whether it is a tail call, which is a jump.
    pub tail: bool,
    /// Whether it stands in code that is run once at the start.
    pub init: bool,
}

/// A table isn't whole entries.
#[derive(Clone, Copy, Debug, PartialEq, Eq, Error)]
#[error("a table of {size:x} bytes")]
pub struct BadSize {
    /// How many bytes the table has.
    pub size: u64,
}

/// How many entries a table has.
///
/// # Errors
/// `BadSize` exactly where its content isn't whole entries.
pub fn count(section: &Section, kind: TableKind) -> Result<u32, BadSize>
    requires { length section.now.content.now < 2 ^ 32 }
    ensures { MatchResult result (λ n. length section.now.content.now ≡ n * entry_size kind) (λ bad. (length section.now.content.now % entry_size kind ≢ 0) × (bad.size ≡ length section.now.content.now)) }
{
    let size = section.content.len();
    let each = bytes_each(kind);
    if size % each != 0 {
        return Err(BadSize { size: size as u64 });
    }
    Ok((size / each) as u32)
}

/// The entry of a jump table with a number below the count. Sums of addresses wrap modulo 2^64.
pub fn jump_entry(section: &Section, i: u32) -> JumpEntry
    requires { 16 * (i + 1) ≤ length section.now.content.now }
    ensures { result ≡ jump_at section.now (16 * i) }
{
    let at = 16 * i as usize;
    let key = long_field(section, at + 8);
    JumpEntry {
        code: near_address(section, at),
        target: near_address(section, at + 4),
        key: address_from(section, at + 8, without_low_bits(key)),
        likely: has_bit0(key),
        bit1: has_bit1(key),
    }
}

/// The static call site with a number below the count. Sums of addresses wrap modulo 2^64.
pub fn call_site(section: &Section, i: u32) -> CallSite
    requires { 8 * (i + 1) ≤ length section.now.content.now }
    ensures { result ≡ call_at section.now (8 * i) }
{
    let at = 8 * i as usize;
    let key = near_address(section, at + 4);
    CallSite {
        addr: near_address(section, at),
        key: without_low_bits(key),
        tail: has_bit0(key),
        init: has_bit1(key),
    }
}

/// The traced address with a number below the count.
pub fn trace_site(section: &Section, i: u32) -> u64
    requires { 8 * (i + 1) ≤ length section.now.content.now }
    ensures { result ≡ trace_at section.now (8 * i) }
{
    long_field(section, 8 * i as usize)
}

/// How many bytes an entry of a table takes.
fn bytes_each(kind: TableKind) -> usize
    ensures { result ≡ entry_size kind }
{
    match kind {
        TableKind::Jump => 16,
        TableKind::Call | TableKind::Trace => 8,
    }
}

/// The field of 8 bytes at an offset of a section.
#[tactic(auto, unfolding(elf_module::specs::Elf::field))]
fn long_field(section: &Section, at: usize) -> u64
    requires { at + 8 ≤ length section.now.content.now }
    ensures { result ≡ field 8 at section.now.content.now }
{
    LittleEndian::read_u64(&section.content[at..])
}

/// Where the signed field of 4 bytes at an offset of a section leads.
#[tactic(auto, unfolding(elf_module::specs::Elf::field))]
fn near_address(section: &Section, at: usize) -> u64
    requires { at + 4 ≤ length section.now.content.now }
    ensures { result ≡ near section.now at }
{
    let value = LittleEndian::read_u32(&section.content[at..]);
    address_from(section, at, sign_extended(value))
}

/// A signed number of 32 bits, in 64 bits.
fn sign_extended(value: u32) -> u64
    ensures { result ≡ extended value }
{
    i64::from(value.cast_signed()).cast_unsigned()
}

/// The address so far from an offset of a section. It wraps modulo 2^64.
fn address_from(section: &Section, at: usize, distance: u64) -> u64
    ensures { result ≡ relative (section.now.addr + at) distance }
{
    section.addr.wrapping_add(at as u64).wrapping_add(distance)
}

/// A number without its low two bits.
fn without_low_bits(value: u64) -> u64
    ensures { result ≡ cleared value }
{
    value & !3
}

/// Whether bit 0 is set.
fn has_bit0(value: u64) -> bool
    ensures { result ≡ (value % 2 == 1) }
{
    value & 1 != 0
}

/// Whether bit 1 is set.
fn has_bit1(value: u64) -> bool
    ensures { result ≡ (value / 2 % 2 == 1) }
{
    (value >> 1) & 1 != 0
}

#[cfg(test)]
mod tests {
    use super::*;

    // A table at an address.
    fn table(addr: u64, content: &[u8]) -> Section
        ensures { (result.addr ≡ addr) × (result.content.now ≡ content.now) }
    {
        Section {
            index: 2,
            name: b"",
            kind: 1,
            flags: 3,
            addr,
            size: content.len() as u64,
            link: 0,
            content,
        }
    }

    #[test]
    fn jump_entries_are_read(rt: HostRuntime) {
        let content: [u8; 16] = [
            0x00, 0xe0, 0xff, 0xff, 0x1c, 0xe0, 0xff, 0xff, 0xf9, 0x0f, 0, 0, 0, 0, 0, 0,
        ];
        let entry = JumpEntry {
            code: 0x0040_1000,
            target: 0x0040_1020,
            key: 0x0040_4000,
            likely: true,
            bit1: false,
        };
        assert_eq!(rt; jump_entry(&table(0x0040_3000, &content), 0), entry);
    }

    #[test]
    fn a_jump_key_is_cleared_before_the_sum(rt: HostRuntime) {
        let content: [u8; 16] = [
            0x0e, 0xe0, 0xff, 0xff, 0x1a, 0xe0, 0xff, 0xff, 0xf7, 0x0f, 0, 0, 0, 0, 0, 0,
        ];
        let entry = JumpEntry {
            code: 0x0040_1010,
            target: 0x0040_1020,
            key: 0x0040_3ffe,
            likely: true,
            bit1: true,
        };
        assert_eq!(rt; jump_entry(&table(0x0040_3002, &content), 0), entry);
    }

    #[test]
    fn call_sites_are_read(rt: HostRuntime) {
        let content: [u8; 8] = [0x10, 0xdf, 0xff, 0xff, 0xfd, 0x0f, 0, 0];
        let site = CallSite {
            addr: 0x0040_1010,
            key: 0x0040_4100,
            tail: true,
            init: false,
        };
        assert_eq!(rt; call_site(&table(0x0040_3100, &content), 0), site);
    }

    #[test]
    fn a_call_key_is_cleared_after_the_sum(rt: HostRuntime) {
        let content: [u8; 8] = [0x0e, 0xdf, 0xff, 0xff, 0xfb, 0x0f, 0, 0];
        let site = CallSite {
            addr: 0x0040_1010,
            key: 0x0040_4100,
            tail: true,
            init: false,
        };
        assert_eq!(rt; call_site(&table(0x0040_3102, &content), 0), site);
    }

    #[test]
    fn trace_sites_are_addresses(rt: HostRuntime) {
        let content: [u8; 16] = [
            1, 0, 0, 0, 0, 0, 0, 0, 0x88, 0x77, 0x66, 0x55, 0x44, 0x33, 0x22, 0x11,
        ];
        let section = table(0x0040_3200, &content);
        assert_eq!(rt; trace_site(&section, 0), 1);
        assert_eq!(rt; trace_site(&section, 1), 0x1122_3344_5566_7788);
    }

    #[test]
    fn tables_are_whole_entries(rt: HostRuntime) {
        let tables: [(&[u8], Option<u32>, Option<u32>); 5] = [
            (&[], Some(0), Some(0)),
            (&[0; 16], Some(1), Some(2)),
            (&[0; 17], None, None),
            (&[0; 8], None, Some(1)),
            (&[0; 15], None, None),
        ];
        for (content, jumps, others) in tables {
            let section = table(0, content);
            let bad = BadSize {
                size: content.len() as u64,
            };
            assert_eq!(rt; count(&section, TableKind::Jump), jumps.ok_or(bad));
            assert_eq!(rt; count(&section, TableKind::Call), others.ok_or(bad));
            assert_eq!(rt; count(&section, TableKind::Trace), others.ok_or(bad));
        }
    }
}
