//! What a text is made of, from its first byte on, unit after unit.
ghost use Rattle.std.specs.Prelude.{◌≡◌, ◌≤◌, ◌<◌, ◌+◌, ◌^◌, drop, length, slice_range, IfOk, IfErr};
ghost use Rattle.std.specs.List.{list_all};
ghost use Rattle.module_image.specs.Layout.{IsSwept, plain_unit, site_at, unit_at, unit_len};
ghost use Rattle.module_image.specs.Sweeping.{HasSites, IsSweepFault, is_nothing};
ghost use Rattle.module_image.specs.Text.{AreApart, AreInside, layout_in};
ghost use Rattle.x64_subset.specs.Reading.{read};

use crate::lookup::site_of;
use crate::site_units::site_units;
use crate::{Code, Refused, Unit};
use std::alloc::Global;
use x64_subset::decode;

/// What the text is made of, by offset: what begins at each of its bytes, where units follow one another from its
/// first byte on.
///
/// # Errors
/// `Undecoded` at the first end of a unit where none begins. `NoMemory`.
pub fn sweep(alloc: Global, code: &Code<'_>) -> Result<Vec<Unit>, Refused>
    requires some { 0 < length code.now.bytes.now }
    requires short { length code.now.bytes.now ≤ 65536 }
    requires below { code.now.base + length code.now.bytes.now < 2 ^ 64 }
    requires inside { AreInside code.now.base (length code.now.bytes.now) code.now.sites.now }
    requires apart { AreApart code.now.sites.now }
    requires few { length code.now.sites.now ≤ 1024 }
    ensures swept { IfOk result (λ units. IsSwept (layout_in code.now) units.items) }
    ensures failed { IfErr result (IsSweepFault (layout_in code.now)) }
{
    let mut units = site_units(alloc, code)?;
    let mut offset = 0;
    while offset < code.bytes.len() {
        let unit = unit_at(code, &units, offset);
        let len = unit_len(code, unit);
        if len == 0 {
            return Err(Refused::Undecoded(code.base + offset as u64));
        }
        units[offset] = unit;
        offset += usize::from(len);
    }
    Ok(units)
}

/// What begins at an offset, if a unit does: the site there, or else a plain instruction. The sites stand among the
/// units from there on.
fn unit_at(code: &Code<'_>, units: &[Unit], offset: usize) -> Unit
    requires within { offset < length code.now.bytes.now }
    requires below { code.now.base + length code.now.bytes.now < 2 ^ 64 }
    requires inside { AreInside code.now.base (length code.now.bytes.now) code.now.sites.now }
    requires sites { HasSites (layout_in code.now) units.now offset }
    ensures { result ≡ unit_at (layout_in code.now) (code.now.base + offset) }
{
    match site_there(code, units, offset) {
        Some(number) => Unit::Site(number),
        None => plain_unit(code, units, offset),
    }
}

/// The number of the site that begins at an offset.
fn site_there(code: &Code<'_>, units: &[Unit], offset: usize) -> Option<u32>
    requires within { offset < length code.now.bytes.now }
    requires sites { HasSites (layout_in code.now) units.now offset }
    ensures { result ≡ site_at code.now.sites.now (code.now.base + offset) }
{
    site_of(units, offset)
}

/// The plain instruction that begins at an offset and ends before or at the next site, if one does.
fn plain_unit(code: &Code<'_>, units: &[Unit], offset: usize) -> Unit
    requires within { offset < length code.now.bytes.now }
    requires below { code.now.base + length code.now.bytes.now < 2 ^ 64 }
    requires inside { AreInside code.now.base (length code.now.bytes.now) code.now.sites.now }
    requires sites { HasSites (layout_in code.now) units.now offset }
    ensures { result ≡ plain_unit (layout_in code.now) (code.now.base + offset) (read (code.now.base + offset) (drop offset code.now.bytes.now)) }
{
    match decode(code.base + offset as u64, &code.bytes[offset..]) {
        Ok((insn, len)) => {
            if nothing_between(units, offset, offset + usize::from(len)) {
                Unit::Plain(insn, len)
            } else {
                Unit::Nothing
            }
        }
        Err(_) => Unit::Nothing,
    }
}

/// Whether nothing stands between two offsets.
fn nothing_between(units: &[Unit], from: usize, to: usize) -> bool
    requires order { from < to }
    requires within { to ≤ length units.now }
    ensures { result ≡ list_all is_nothing (slice_range units.now (from + 1) to) }
{
    units[from + 1..to].iter().all(|unit| is_nothing(unit))
}

fn is_nothing(unit: &Unit) -> bool
    ensures { result ≡ is_nothing unit.now }
{
    matches!(unit, Unit::Nothing)
}

/// How many bytes a unit has; 0 where there is none.
pub(crate) fn unit_len(code: &Code<'_>, unit: Unit) -> u8
    ensures { result ≡ unit_len (layout_in code.now) unit }
{
    match unit {
        Unit::Nothing => 0,
        Unit::Plain(_, len) => len,
        Unit::Site(number) => match code.sites.get(number as usize).copied() {
            Some(site) => site.len,
            None => 0,
        },
    }
}
