//! The sites of a text by their offsets.
ghost use Rattle.std.specs.Prelude.{◌≡◌, ◌≤◌, ◌<◌, ◌+◌, ◌-◌, if◌then◌else◌, length, slice_set, IfOk, IfErr};
ghost use Rattle.module_parts.specs.declared.refused.Refused.TheVariants.{NoMemory};
ghost use Rattle.module_parts.specs.declared.unit.Unit.TheVariants.{Site as PatchedSite};
ghost use Rattle.module_image.specs.Sweeping.{HasSites};
ghost use Rattle.module_image.specs.Text.{AreInside, AreApart, layout_in};

use crate::{Code, Refused, Site, Unit};
use std::alloc::Global;

/// By offset, the sites of a text that aren't foreign, each where it begins, and nothing elsewhere.
///
/// # Errors
/// `NoMemory`.
pub fn site_units(alloc: Global, code: &Code<'_>) -> Result<Vec<Unit>, Refused>
    requires inside { AreInside code.now.base (length code.now.bytes.now) code.now.sites.now }
    requires apart { AreApart code.now.sites.now }
    requires few { length code.now.sites.now ≤ 1024 }
    ensures units { IfOk result (λ units. HasSites (layout_in code.now) units.items 0) }
    ensures failed { IfErr result (λ why. why ≡ NoMemory) }
{
    let mut units = vec![in alloc; Unit::Nothing; code.bytes.len()]?;
    for (number, site) in code.sites.iter().enumerate() {
        put_site(code.base, number as u32, site, &mut units);
    }
    Ok(units)
}

/// Puts a site at its offset, where it isn't foreign.
fn put_site(base: u64, number: u32, site: &Site, units: &mut [Unit])
    requires from { base ≤ site.now.at }
    requires to { site.now.at < base + length units.old }
    ensures { units.new ≡ (if site.now.foreign then units.old else slice_set units.old (site.now.at - base) (PatchedSite number)) }
{
    if site.foreign {
        return;
    }
    units[(site.at - base) as usize] = Unit::Site(number);
}
