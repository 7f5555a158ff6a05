//! What stands at the end of a text.
ghost use Rattle.std.specs.Prelude.{◌≡◌, ◌≤◌, ◌<◌, ◌+◌, ◌^◌, ℕ, MatchOption, length};
ghost use Rattle.module_image.specs.Ending.{falls_off};
ghost use Rattle.module_image.specs.Layout.{IsFalling, IsSwept, is_tail, may_end, never_falls};
ghost use Rattle.module_image.specs.Text.{layout_in};

use crate::sweep::unit_len;
use crate::{Code, SiteKind, Unit};
use x64_subset::Insn;

/// The address of the last unit of a text, where another may follow it. The units are what the text was swept to.
pub fn falling_end(code: &Code<'_>, units: &[Unit]) -> Option<u64>
    requires swept { IsSwept (layout_in code.now) units.now }
    requires below { code.now.base + length code.now.bytes.now < 2 ^ 64 }
    ensures { MatchOption result ((at : ℕ) → IsFalling (layout_in code.now) at → ⊥) (IsFalling (layout_in code.now)) }
{
    for (offset, unit) in units.iter().enumerate() {
        if falls_off(code, offset, *unit) {
            return Some(code.base + offset as u64);
        }
    }
    None
}

/// Whether a unit at an offset is the last one, and another may follow it.
fn falls_off(code: &Code<'_>, offset: usize, unit: Unit) -> bool
    requires within { offset ≤ length code.now.bytes.now }
    ensures { result ≡ falls_off (layout_in code.now) offset unit }
{
    usize::from(unit_len(code, unit)) == code.bytes.len() - offset && !may_end(code, unit)
}

/// Whether a unit may be the last of a text.
fn may_end(code: &Code<'_>, unit: Unit) -> bool
    ensures { result ≡ may_end (layout_in code.now) unit }
{
    match unit {
        Unit::Nothing => false,
        Unit::Plain(insn, _) => never_falls(insn),
        Unit::Site(number) => match code.sites.get(number as usize).copied() {
            Some(site) => is_tail(site.kind),
            None => false,
        },
    }
}

/// Whether the processor never goes on from an instruction to the next one.
fn never_falls(insn: Insn) -> bool
    ensures { result ≡ never_falls insn }
{
    matches!(
        insn,
        Insn::Jmp8(_) | Insn::Jmp32(_) | Insn::Ret | Insn::Hlt | Insn::Ud2 | Insn::Int3
    )
}

/// Whether a site is a call in tail position.
fn is_tail(kind: SiteKind) -> bool
    ensures { result ≡ is_tail kind }
{
    matches!(kind, SiteKind::Tail { .. })
}
