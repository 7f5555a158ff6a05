//! Where jumps, calls, keys and functions lead.
ghost use Rattle.std.specs.Prelude.{◌≡◌, ◌↔◌, ◌+◌, ◌<◌, ◌^◌, IsTrue, MatchOption, length, map};
ghost use Rattle.module_image.specs.Aims.{AllLead, AllPlainReach, AllReach, IsFirstBad, IsFirstBadOf, IsFirstBadPlain, function_aim, jump_aims, key_aims, plain_target};
ghost use Rattle.module_image.specs.Layout.{IsStart, IsSwept};
ghost use Rattle.module_image.specs.Leads.{IsAstray, LeadsWell, jump_target, key_target};
ghost use Rattle.module_image.specs.Text.{layout_in};

use crate::lookup::begins_at;
use crate::{Aim, Code, Key, KeyClass, SiteKind, Unit};
use x64_subset::Insn;

/// Whether a unit begins at an address. The units are what the text was swept to.
pub fn is_start(code: &Code<'_>, units: &[Unit], at: u64) -> bool
    requires swept { IsSwept (layout_in code.now) units.now }
    ensures { IsTrue result ↔ IsStart (layout_in code.now) at }
{
    begins_at(code.base, units, at)
}

/// The first of the plain jumps and calls, the jump sites, the keys and the functions, in this order, that leads
/// where no unit begins. The units are what the text was swept to.
pub fn bad_target(code: &Code<'_>, units: &[Unit], keys: &[Key], functions: &[u64]) -> Option<Aim>
    requires swept { IsSwept (layout_in code.now) units.now }
    requires below { code.now.base + length code.now.bytes.now < 2 ^ 64 }
    ensures { MatchOption result (AllLead (layout_in code.now) (jump_aims code.now.sites.now) (key_aims keys.now) (map function_aim functions.now)) (IsFirstBadOf (layout_in code.now) (jump_aims code.now.sites.now) (key_aims keys.now) (map function_aim functions.now)) }
{
    if let Some(aim) = bad_plain(code, units) {
        return Some(aim);
    }
    if let Some(aim) = bad_site(code, units) {
        return Some(aim);
    }
    if let Some(aim) = bad_key(code, units, keys) {
        return Some(aim);
    }
    bad_function(code, units, functions)
}

/// The first plain jump or call that leads astray.
fn bad_plain(code: &Code<'_>, units: &[Unit]) -> Option<Aim>
    requires swept { IsSwept (layout_in code.now) units.now }
    requires below { code.now.base + length code.now.bytes.now < 2 ^ 64 }
    ensures { MatchOption result (AllPlainReach (layout_in code.now)) (IsFirstBadPlain (layout_in code.now)) }
{
    for (offset, unit) in units.iter().enumerate() {
        let from = code.base + offset as u64;
        if let Some(aim) = astray(code, units, from, plain_target(*unit)) {
            return Some(aim);
        }
    }
    None
}

/// The first jump site that leads astray.
fn bad_site(code: &Code<'_>, units: &[Unit]) -> Option<Aim>
    requires swept { IsSwept (layout_in code.now) units.now }
    ensures { MatchOption result (AllReach (layout_in code.now) (jump_aims code.now.sites.now)) (IsFirstBad (layout_in code.now) (jump_aims code.now.sites.now)) }
{
    for site in code.sites {
        if let Some(aim) = astray(code, units, site.at, jump_target(site.kind)) {
            return Some(aim);
        }
    }
    None
}

/// The first key with a function that leads astray.
fn bad_key(code: &Code<'_>, units: &[Unit], keys: &[Key]) -> Option<Aim>
    requires swept { IsSwept (layout_in code.now) units.now }
    ensures { MatchOption result (AllReach (layout_in code.now) (key_aims keys.now)) (IsFirstBad (layout_in code.now) (key_aims keys.now)) }
{
    for key in keys {
        if let Some(aim) = astray(code, units, key.at, key_target(key.class, key.start)) {
            return Some(aim);
        }
    }
    None
}

/// The first function at whose address no unit begins.
fn bad_function(code: &Code<'_>, units: &[Unit], functions: &[u64]) -> Option<Aim>
    requires swept { IsSwept (layout_in code.now) units.now }
    ensures { MatchOption result (AllReach (layout_in code.now) (map function_aim functions.now)) (IsFirstBad (layout_in code.now) (map function_aim functions.now)) }
{
    for function in functions {
        if let Some(aim) = astray(code, units, *function, Some(*function)) {
            return Some(aim);
        }
    }
    None
}

/// The way from one address to another, if it leads where no unit begins.
fn astray(code: &Code<'_>, units: &[Unit], from: u64, to: Option<u64>) -> Option<Aim>
    requires swept { IsSwept (layout_in code.now) units.now }
    ensures { MatchOption result (LeadsWell (layout_in code.now) to) (IsAstray (layout_in code.now) from to) }
{
    match to {
        Some(to) => {
            if is_start(code, units, to) {
                None
            } else {
                Some(Aim { from, to })
            }
        }
        None => None,
    }
}

/// Where a plain jump or call leads.
fn plain_target(unit: Unit) -> Option<u64>
    ensures { result ≡ plain_target unit }
{
    match unit {
        Unit::Plain(
            Insn::Jmp8(to)
            | Insn::Jmp32(to)
            | Insn::Call(to)
            | Insn::Jcc8(_, to)
            | Insn::Jcc32(_, to),
            _,
        ) => Some(to),
        Unit::Nothing | Unit::Plain(_, _) | Unit::Site(_) => None,
    }
}

/// Where a jump site leads.
fn jump_target(kind: SiteKind) -> Option<u64>
    ensures { result ≡ jump_target kind }
{
    match kind {
        SiteKind::Jump { target, .. } => Some(target),
        SiteKind::Call { .. } | SiteKind::Tail { .. } | SiteKind::Trace => None,
    }
}

/// The function of a call's key, where it has one.
fn key_target(class: KeyClass, start: u64) -> Option<u64>
    ensures { result ≡ key_target class start }
{
    match class {
        KeyClass::Call if start != 0 => Some(start),
        KeyClass::Call | KeyClass::Jump => None,
    }
}
