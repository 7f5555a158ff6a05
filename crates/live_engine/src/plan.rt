//! The live plan of a script.
ghost use Rattle.std.specs.Prelude.{◌≡◌, ◌++◌, All, IfOk, OnOk, map};
ghost use Rattle.module_image.specs.Held.{first_states};
ghost use Rattle.poke_batch.specs.Poke.{chunks};
ghost use Rattle.script_text.specs.Commands.{commands};
ghost use Rattle.script_text.specs.Laws.{IsScriptOf, IsStepOf};
ghost use Rattle.live_engine.specs.FirstForms.{StartsAsWanted};
ghost use Rattle.live_engine.specs.LivePlan.{AreLiveSites, IsPlanOf, chunks_made};

use insn_forms::Change;
use key_state::{Keys, Settled};
use live_text::{LivePlan, LiveSite};
use module_image::Image;
use poke_base::NoMemory;
use script_text::{Script, ScriptStep};
use std::alloc::Global;

/// How many sites are poked together, as many as Linux keeps in a page.
const CHUNK: usize = 256;

/// The live plan of a script for its module: the patched sites, each with the form that the text holds, and the chunks of all
/// updates that are done, in order. An update that is refused or clashes has none, nor has one that changes nothing. It takes
/// time linear in the sites for each update.
///
/// # Errors
/// Out of memory.
pub fn live_plan(alloc: Global, image: &Image, script: &Script) -> Result<LivePlan, NoMemory>
    requires { IsScriptOf image.now script.now }
    ensures { IfOk result (IsPlanOf image.now script.now) }
{
    image.accepted();
    let sites = live_sites(alloc, image)?;
    let chunks = live_chunks(alloc, image, script.steps())?;
    Ok(LivePlan { sites, chunks })
}

/// The patched sites, each with the form that the text holds: the one that it wants before any update.
///
/// # Errors
/// Out of memory.
fn live_sites(alloc: Global, image: &Image) -> Result<Vec<LiveSite>, NoMemory>
    ensures sites { IfOk result (λ sites. AreLiveSites image.now sites.items) }
    ensures starts { IfOk result (λ sites. All (StartsAsWanted image.now) sites.items) }
{
    image.accepted();
    let keys = Keys::of(alloc, image)?;
    let mut sites = Vec::new(alloc);
    let count = image.sites().len() as u32;
    for number in 0..count {
        let site = image.sites()[number as usize];
        if !site.foreign {
            let start = keys.wants(image, number);
            sites.push(LiveSite { at: site.at, start })?;
        }
    }
    Ok(sites)
}

/// The chunks of all updates that are done, in order.
///
/// # Errors
/// Out of memory.
fn live_chunks(
    alloc: Global,
    image: &Image,
    steps: &[ScriptStep],
) -> Result<Vec<Vec<Change>>, NoMemory>
    requires { All (IsStepOf image.now) steps.now }
    ensures { IfOk result (λ made. map (λ chunk. chunk.items) made.items ≡ chunks_made image.now (first_states image.now) (commands steps.now)) }
{
    let mut settled = Settled::new(alloc, image)?;
    let mut chunks = Vec::new(alloc);
    for step in steps {
        if let ScriptStep::Update(command) = step {
            let _ = settled.take(image, command);
            push_chunks(alloc, &mut chunks, settled.changed())?;
        }
    }
    Ok(chunks)
}

/// Adds the chunks of an update with these changes.
///
/// # Errors
/// Out of memory.
fn push_chunks(
    alloc: Global,
    all: &mut Vec<Vec<Change>>,
    changes: &[Change],
) -> Result<(), NoMemory>
    ensures { OnOk result (map (λ chunk. chunk.items) all.new.items ≡ map (λ chunk. chunk.items) all.old.items ++ chunks changes.now) }
{
    let mut rest = changes;
    while !rest.is_empty() {
        let (chunk, later) = rest.split_at(rest.len().min(CHUNK));
        all.push(Vec::from_slice(alloc, chunk)?)?;
        rest = later;
    }
    Ok(())
}
