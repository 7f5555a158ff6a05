//! What the sites hold after all chunks, and how long a worker needs that is alone.
ghost use Rattle.std.specs.Prelude.{◌≡◌, IfOk};
ghost use Rattle.live_text.specs.Plan.{changed, chunks_of, form_after};
ghost use Rattle.poke_batch.specs.Poke.{spelled};
ghost use Rattle.live_engine.specs.LivePlan.{last_bytes};

use insn_forms::{Change, Form};
use live_text::{LivePlan, LiveSite};
use poke_base::{CodeBytes, NoMemory};
use std::alloc::Global;

/// How many requests the poke of a chunk has.
const ROUNDS: u64 = 3;

/// The bytes of all sites, in order, after all chunks.
///
/// # Errors
/// Out of memory.
pub fn last_bytes(alloc: Global, plan: &LivePlan) -> Result<Vec<u8>, NoMemory>
    ensures { IfOk result (λ bytes. bytes.items ≡ last_bytes plan.now) }
{
    let mut bytes = Vec::new(alloc);
    for site in &plan.sites {
        let form = last_form(plan, *site);
        bytes.extend_from_slice(spelled(form, site.at).as_slice())?;
    }
    Ok(bytes)
}

/// The form of a site after all chunks.
fn last_form(plan: &LivePlan, site: LiveSite) -> Form
    ensures { result ≡ form_after (chunks_of plan.now) site.at site.start }
{
    let mut form = site.start;
    for chunk in &plan.chunks {
        form = changed(chunk, site.at, form);
    }
    form
}

/// The form that the site at an address has after the changes of a chunk.
fn changed(chunk: &[Change], at: u64, form: Form) -> Form
    ensures { result ≡ changed chunk.now at form }
{
    for change in chunk {
        if change.at == at {
            return change.new;
        }
    }
    form
}

/// The bytes of a form at an address, or none where its displacement doesn't reach its target.
fn spelled(form: Form, at: u64) -> CodeBytes
    ensures { result.items ≡ spelled form at }
{
    match form.encode(at) {
        Ok(code) => code,
        Err(_) => CodeBytes::new(),
    }
}

/// The most turns that a patch worker needs when every processor has left: one for each item of the plan, and one for each
/// processor at each request.
pub fn most_turns(plan: &LivePlan, cpus: u8) -> u64 {
    let mut most: u64 = 0;
    for chunk in &plan.chunks {
        most = most.saturating_add(chunk_turns(chunk, cpus));
    }
    most
}

/// The same for one chunk.
fn chunk_turns(chunk: &[Change], cpus: u8) -> u64 {
    let mut turns = ROUNDS * (1 + u64::from(cpus));
    for change in chunk {
        turns = turns.saturating_add(1 + u64::from(change.new.size()));
    }
    turns
}
