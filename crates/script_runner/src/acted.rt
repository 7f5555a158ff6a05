//! What an event did, as tracers see it.
ghost use Rattle.std.specs.Prelude.{◌≡◌, if◌then◌else◌, [], ◌∷◌};
ghost use Rattle.module_image.specs.Module.{is_trace};
ghost use Rattle.script_runner.specs.Operations.Operation.{Hits};
ghost use Rattle.x64_subset.specs.declared.proc.Life.{Life};
ghost use Rattle.script_runner.specs.Operations.{is_call, is_hit, is_trace_site, operations, operations_of, site_of};
ghost use Rattle.module_image.specs.Layout.{site_at};
ghost use Rattle.switching.specs.Said.{said_handled, said_stepped};

use cpu_core::Stepped;
use int3_handler::Handled;
use module_image::{Image, SiteKind};
use x64_subset::Insn;

/// What an event did, as tracers see it.
#[derive(Clone, Copy, Debug, PartialEq, Eq)]
pub enum Acted {
    /// Nothing that they see.
    Plain,
    /// A processor called the tracer at the traced site that begins at an address.
    Hit { cpu: u8, site: u64 },
    /// The tracer at a place is dropped.
    Drop { place: u8 },
}

/// What a turn without the handler did, of a processor by its number.
#[tactic(auto, using(crate::proofs::Acting::mark_acts, crate::proofs::Acting::pass_acts))]
pub fn acted_stepped(image: &Image, cpu: u8, stepped: &Stepped) -> Acted
    ensures { (life : Life) → operations_of result ≡ operations image.now (said_stepped cpu life stepped.now) }
{
    match *stepped {
        Stepped::Pass { at, insn, .. } => acted_at(image, cpu, at, &insn),
        Stepped::Plain(_) | Stepped::Trapped | Stepped::Torn => Acted::Plain,
    }
}

/// What the handler did, of a processor by its number.
#[tactic(auto, using(crate::proofs::Acting::mark_acts, crate::proofs::Acting::pass_acts))]
pub fn acted_handled(image: &Image, cpu: u8, handled: &Handled) -> Acted
    ensures { (life : Life) → operations_of result ≡ operations image.now (said_handled cpu life handled.now) }
{
    match *handled {
        Handled::Emulated { at, form, .. } => acted_at(image, cpu, at, &Insn::from(form)),
        Handled::NotOurs => Acted::Plain,
    }
}

/// A call of the tracer is a hit.
fn acted_at(image: &Image, cpu: u8, at: u64, insn: &Insn) -> Acted
    ensures { operations_of result ≡ (if is_hit image.now at insn.now then Hits cpu at ∷ [] else []) }
{
    if is_call(insn) && is_traced(image, at) {
        Acted::Hit { cpu, site: at }
    } else {
        Acted::Plain
    }
}

fn is_call(insn: &Insn) -> bool
    ensures { result ≡ is_call insn.now }
{
    matches!(insn, Insn::Call(_))
}

/// Whether a trace site begins at an address, which isn't foreign.
fn is_traced(image: &Image, at: u64) -> bool
    ensures { result ≡ is_trace_site (site_of image.now (site_at image.now.sites at)) }
{
    match image.site_at(at) {
        Some(site) => is_trace(image.sites()[site as usize].kind),
        None => false,
    }
}

fn is_trace(kind: SiteKind) -> bool
    ensures { result ≡ is_trace kind }
{
    matches!(kind, SiteKind::Trace)
}
