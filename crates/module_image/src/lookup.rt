//! What begins at an address, by the table of units.
ghost use Rattle.std.specs.Prelude.{◌≡◌, ◌-◌, nat_lt, if◌then◌else◌, slice_get, None};
ghost use Rattle.module_image.specs.Leads.{begins_at, is_unit};
ghost use Rattle.module_image.specs.Module.{plain_of};
ghost use Rattle.module_image.specs.Sweeping.{site_in};

use crate::Unit;
use x64_subset::Insn;

/// The plain instruction that begins at an address, with its length in bytes. The units are those of a text at
/// the address `base`, by offset.
pub fn plain_at(base: u64, units: &[Unit], at: u64) -> Option<(Insn, u8)>
    ensures { result ≡ (if nat_lt at base then None else plain_of (slice_get units.now (at - base))) }
{
    if at < base {
        return None;
    }
    match units.get((at - base) as usize).copied() {
        Some(Unit::Plain(insn, len)) => Some((insn, len)),
        Some(Unit::Nothing) => None,
        Some(Unit::Site(_)) => None,
        None => None,
    }
}

/// The number of the site that isn't foreign and begins at an address. The units are those of a text at the
/// address `base`, by offset.
pub fn site_at(base: u64, units: &[Unit], at: u64) -> Option<u32>
    ensures { result ≡ (if nat_lt at base then None else site_in (slice_get units.now (at - base))) }
{
    if at < base {
        return None;
    }
    site_of(units, (at - base) as usize)
}

/// The number of the site that stands at an offset of a table of units, if one does.
pub fn site_of(units: &[Unit], offset: usize) -> Option<u32>
    ensures { result ≡ site_in (slice_get units.now offset) }
{
    match units.get(offset).copied() {
        Some(Unit::Site(number)) => Some(number),
        Some(Unit::Nothing) => None,
        Some(Unit::Plain(_, _)) => None,
        None => None,
    }
}

/// Whether a unit begins at an address. The units are those of a text at the address `base`, by offset.
pub fn begins_at(base: u64, units: &[Unit], at: u64) -> bool
    ensures { result ≡ begins_at base units.now at }
{
    if at < base {
        return false;
    }
    is_unit(units.get((at - base) as usize).copied())
}

/// Whether what was found in a table of units is a unit.
fn is_unit(unit: Option<Unit>) -> bool
    ensures { result ≡ is_unit unit }
{
    match unit {
        Some(Unit::Plain(_, _)) => true,
        Some(Unit::Site(_)) => true,
        Some(Unit::Nothing) => false,
        None => false,
    }
}
