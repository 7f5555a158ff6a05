//! The conditions on a module's text once it is written.
ghost use Rattle.std.specs.Prelude.{◌≡◌, ◌<◌, ◌≤◌, ◌+◌, ◌^◌, length, map, IfOk, OnOk};
ghost use Rattle.module_image.specs.Aims.{AllLead, function_aim, jump_aims, key_aims};
ghost use Rattle.module_names.specs.Keys.{keys};
ghost use Rattle.module_image.specs.Layout.{IsSwept, layout};
ghost use Rattle.module_names.specs.Names.{functions};
ghost use Rattle.module_image.specs.Refusals.{Passes, Tries, function_aims, past_all, past_bad_target, past_tracer_missing, past_undecoded};
ghost use Rattle.module_image.specs.Sites.{sites};
ghost use Rattle.module_image.specs.Text.{AreApart, AreInside, layout_in};

use crate::aims::bad_target;
use crate::ending::falling_end;
use crate::sweep::sweep;
use crate::{Code, Key, Refused, Unit};
use elf_module::ElfFile;
use std::alloc::Global;

/// Sweeps the text.
///
/// # Errors
/// `Undecoded`; out of memory.
pub fn find_units(alloc: Global, file: &ElfFile<'_>, code: &Code<'_>) -> Result<Vec<Unit>, Refused>
    requires passed { Passes file.now past_tracer_missing }
    requires laid { layout_in code.now ≡ layout file.now }
    requires some { 0 < length code.now.bytes.now }
    requires short { length code.now.bytes.now ≤ 65536 }
    requires below { code.now.base + length code.now.bytes.now < 2 ^ 64 }
    requires inside { AreInside code.now.base (length code.now.bytes.now) code.now.sites.now }
    requires apart { AreApart code.now.sites.now }
    requires few { length code.now.sites.now ≤ 1024 }
    ensures tried { Tries file.now past_undecoded result }
    ensures swept { IfOk result (λ units. IsSwept (layout file.now) units.items) }
{
    sweep(alloc, code)
}

/// Looks for a jump, call, key or function that leads where no unit begins.
///
/// # Errors
/// `BadTarget` for the first.
pub fn targets(
    file: &ElfFile<'_>,
    code: &Code<'_>,
    units: &[Unit],
    found: &[Key],
    addresses: &[u64],
) -> Result<(), Refused>
    requires passed { Passes file.now past_undecoded }
    requires laid { layout_in code.now ≡ layout file.now }
    requires below { code.now.base + length code.now.bytes.now < 2 ^ 64 }
    requires swept { IsSwept (layout file.now) units.now }
    requires keys { found.now ≡ keys file.now }
    requires functions { map function_aim addresses.now ≡ function_aims (functions file.now) }
    ensures tried { Tries file.now past_bad_target result }
    ensures leads { OnOk result (AllLead (layout file.now) (jump_aims (sites file.now)) (key_aims (keys file.now)) (function_aims (functions file.now))) }
{
    match bad_target(code, units, found, addresses) {
        Some(aim) => Err(Refused::BadTarget(aim.from, aim.to)),
        None => Ok(()),
    }
}

/// Looks for a last unit that may be followed by another.
///
/// # Errors
/// `EndFalls` for it.
pub fn end_falls(file: &ElfFile<'_>, code: &Code<'_>, units: &[Unit]) -> Result<(), Refused>
    requires passed { Passes file.now past_bad_target }
    requires laid { layout_in code.now ≡ layout file.now }
    requires below { code.now.base + length code.now.bytes.now < 2 ^ 64 }
    requires swept { IsSwept (layout file.now) units.now }
    ensures { Tries file.now past_all result }
{
    match falling_end(code, units) {
        Some(at) => Err(Refused::EndFalls(at)),
        None => Ok(()),
    }
}
