//! Sites and changes of a plan by their addresses.
ghost use Rattle.std.specs.Prelude.{◌≡◌, ◌+◌, ◌/◌, ◌<◌, ◌^◌, ℕ, IfNone, IfSome, option_map, None};
ghost use Rattle.live_text.specs.Plan.{Stands};
ghost use Rattle.poke_batch.specs.Walk.{new_form};
ghost use Rattle.live_engine.specs.Lookup.{version_for};
ghost use Rattle.live_text.specs.Versions.{chunk_of};
ghost use Rattle.live_engine.specs.Versions.{IsSiteAt};

use insn_forms::Form;
use live_text::LivePlan;

/// How many requests the poke of a chunk has.
const ROUNDS: u64 = 3;

/// The number of the site that begins at an address. `None` exactly where none does.
pub fn site_at(plan: &LivePlan, at: u64) -> Option<u32>
    requires { Stands plan.now }
    ensures found { IfSome result (λ site. IsSiteAt plan.now site at) }
    ensures missing { IfNone result ((site : ℕ) → ¬ IsSiteAt plan.now site at) }
{
    match plan.sites.binary_search_by_key(&at, |site| site.at) {
        Ok(site) => Some(site as u32),
        Err(_) => None,
    }
}

/// The number of the chunk that is under way for a processor with this acknowledgement, counted from 0.
pub fn chunk_under_way(ack: u64) -> u32
    requires { ack / 3 < 2 ^ 32 }
    ensures { result ≡ ack / 3 }
{
    (ack / ROUNDS) as u32
}

/// The new form that a chunk gives the site at an address. `None` exactly where the chunk doesn't change it.
pub fn new_form(plan: &LivePlan, chunk: u32, at: u64) -> Option<Form>
    requires { Stands plan.now }
    ensures { result ≡ option_map (λ found. found.0) (new_form (chunk_of plan.now chunk) at) }
{
    let changes = plan.chunks.get(chunk as usize)?;
    match changes.binary_search_by_key(&at, |change| change.at) {
        Ok(place) => Some(changes[place].new),
        Err(_) => None,
    }
}

/// The version that the site at an address has for a processor with this acknowledgement which isn't trapped: that before
/// the chunk that is under way, or the one after it where the chunk changes the site and a request of it was acknowledged.
pub fn version_for(plan: &LivePlan, ack: u64, at: u64) -> u32
    requires stands { Stands plan.now }
    requires few { ack / 3 < 2 ^ 32 }
    ensures { result ≡ version_for plan.now ack at }
{
    let chunk = chunk_under_way(ack);
    if ack % ROUNDS == 0 || new_form(plan, chunk, at).is_none() {
        chunk
    } else {
        chunk + 1
    }
}
