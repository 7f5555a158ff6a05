//! The header of an ELF64 file: what it has to be, one function for each refusal.
ghost use Rattle.std.specs.Prelude.{◌≡◌, ◌≤◌, length, IfOk, OnOk};
ghost use Rattle.elf_module.specs.Refusals.{Passes, Tries};

use crate::fields::{ends_past, u8_at, u16_at, u32_at, u64_at};
use crate::headers::{HEADER_SIZE, Headers};
use crate::refused::ElfRefused;

/// The first four bytes of an ELF file.
const MAGIC: &[u8] = b"\x7fELF";

/// The machine x86-64.
const EM_X86_64: u16 = 62;

/// The kind of a relocatable file.
const ET_REL: u16 = 1;

/// The kind of an executable file.
const ET_EXEC: u16 = 2;

/// Looks for 64 bytes of a header.
pub(crate) fn long(bytes: &[u8]) -> Result<(), ElfRefused>
    ensures tried { Tries bytes.now 2 result }
    ensures long { OnOk result (64 ≤ length bytes.now) }
{
    if bytes.len() < 64 {
        return Err(ElfRefused::Short(bytes.len() as u64));
    }
    Ok(())
}

/// Looks at the first four bytes.
pub(crate) fn magic(bytes: &[u8]) -> Result<(), ElfRefused>
    requires long { 64 ≤ length bytes.now }
    requires passes { Passes bytes.now 2 }
    ensures { Tries bytes.now 3 result }
{
    if &bytes[..4] != MAGIC {
        return Err(ElfRefused::Magic(0));
    }
    Ok(())
}

/// Looks for a 64-bit file.
pub(crate) fn class(bytes: &[u8]) -> Result<(), ElfRefused>
    requires long { 64 ≤ length bytes.now }
    requires passes { Passes bytes.now 3 }
    ensures { Tries bytes.now 4 result }
{
    if u8_at(bytes, 4) != 2 {
        return Err(ElfRefused::Class(4));
    }
    Ok(())
}

/// Looks for little endian.
pub(crate) fn data(bytes: &[u8]) -> Result<(), ElfRefused>
    requires long { 64 ≤ length bytes.now }
    requires passes { Passes bytes.now 4 }
    ensures { Tries bytes.now 5 result }
{
    if u8_at(bytes, 5) != 1 {
        return Err(ElfRefused::Data(5));
    }
    Ok(())
}

/// Looks at the two fields of the version.
pub(crate) fn version(bytes: &[u8]) -> Result<(), ElfRefused>
    requires long { 64 ≤ length bytes.now }
    requires passes { Passes bytes.now 5 }
    ensures { Tries bytes.now 6 result }
{
    if u8_at(bytes, 6) != 1 {
        return Err(ElfRefused::Version(6));
    }
    if u32_at(bytes, 20) != 1 {
        return Err(ElfRefused::Version(0x14));
    }
    Ok(())
}

/// Looks for x86-64.
pub(crate) fn machine(bytes: &[u8]) -> Result<(), ElfRefused>
    requires long { 64 ≤ length bytes.now }
    requires passes { Passes bytes.now 6 }
    ensures { Tries bytes.now 7 result }
{
    if u16_at(bytes, 18) != EM_X86_64 {
        return Err(ElfRefused::Machine(0x12));
    }
    Ok(())
}

/// Looks for a relocatable or executable file.
pub(crate) fn kind(bytes: &[u8]) -> Result<(), ElfRefused>
    requires long { 64 ≤ length bytes.now }
    requires passes { Passes bytes.now 7 }
    ensures { Tries bytes.now 8 result }
{
    match u16_at(bytes, 16) {
        ET_REL | ET_EXEC => Ok(()),
        _ => Err(ElfRefused::Kind(0x10)),
    }
}

/// Refuses a relocatable file.
pub(crate) fn relocatable(bytes: &[u8]) -> Result<(), ElfRefused>
    requires long { 64 ≤ length bytes.now }
    requires passes { Passes bytes.now 8 }
    ensures { Tries bytes.now 9 result }
{
    if u16_at(bytes, 16) == ET_REL {
        return Err(ElfRefused::Relocatable(0x10));
    }
    Ok(())
}

/// Finds the table of section headers.
pub(crate) fn headers(bytes: &[u8]) -> Result<Headers<'_>, ElfRefused>
    requires long { 64 ≤ length bytes.now }
    requires passes { Passes bytes.now 9 }
    ensures tried { Tries bytes.now 10 result }
    ensures same { IfOk result (λ headers. headers.bytes.now ≡ bytes.now) }
{
    if u16_at(bytes, 58) != HEADER_SIZE {
        return Err(ElfRefused::Headers(0x3a));
    }
    let count = u16_at(bytes, 60);
    if count == 0 {
        return Err(ElfRefused::Headers(0x3c));
    }
    let offset = u64_at(bytes, 40);
    if ends_past(
        offset,
        u64::from(HEADER_SIZE) * u64::from(count),
        bytes.len() as u64,
    ) {
        return Err(ElfRefused::Headers(0x28));
    }
    let names = u16_at(bytes, 62);
    if names >= count {
        return Err(ElfRefused::Headers(0x3e));
    }
    Ok(Headers {
        bytes,
        offset: offset as usize,
        count,
        names,
    })
}
