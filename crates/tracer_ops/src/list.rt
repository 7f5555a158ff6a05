//! A list of tracers.
ghost use Rattle.std.specs.Prelude.{◌≡◌, ◌<◌, ◌≤◌, IfOk, IfErr, OnOk, OnErr, map, length, slice_get};
ghost use Rattle.std.specs.Option.{ForSome};
ghost use Rattle.tracer_ops.specs.Meaning.{IsAs, IsTotal, hit};
ghost use Rattle.tracer_ops.specs.Tracers.{AreAs, all_hit, without};

use crate::Tracer;
use thiserror::Error;

/// There is no tracer at a place.
#[derive(Clone, Copy, Debug, PartialEq, Eq, Error)]
#[error("{len} tracers are left")]
pub struct NoSuch {
    /// How many tracers there are.
    pub len: u64,
}

/// Hits one tracer.
fn hit_one(tracer: &mut Box<dyn Tracer>, cpu: u8, site: u64)
    ensures { IsAs (meaning tracer.new) (hit site (meaning tracer.old)) }
{
    tracer.hit(cpu, site);
}

/// What one tracer has counted.
fn total_of_one(tracer: &Box<dyn Tracer>) -> u64
    ensures { IsTotal (meaning tracer.now) result }
{
    tracer.total()
}

/// Hits each tracer once, in order.
pub fn feed(tracers: &mut Vec<Box<dyn Tracer>>, cpu: u8, site: u64)
    ensures { AreAs (map (λ b. meaning b) tracers.new.items) (all_hit site (map (λ b. meaning b) tracers.old.items)) }
{
    for place in 0..tracers.len() {
        hit_one(&mut tracers[place], cpu, site);
    }
}

/// Takes the tracer at a place out of the list and lets it go, and answers what it had counted.
pub fn drop_at(tracers: &mut Vec<Box<dyn Tracer>>, place: u8) -> Result<u64, NoSuch>
    ensures found { OnOk result (place < length tracers.old.items) }
    ensures closes_up { OnOk result (map (λ b. meaning b) tracers.new.items ≡ without place (map (λ b. meaning b) tracers.old.items)) }
    ensures total { IfOk result (λ total. ForSome (slice_get (map (λ b. meaning b) tracers.old.items) place) (λ t. IsTotal t total)) }
    ensures missing { IfErr result (λ none. (length tracers.old.items ≤ place) × (none.len ≡ length tracers.old.items)) }
    ensures stays { OnErr result (tracers.new.items ≡ tracers.old.items) }
{
    let index = usize::from(place);
    if index >= tracers.len() {
        return Err(NoSuch {
            len: tracers.len() as u64,
        });
    }
    let total = total_of_one(&tracers[index]);
    drop(tracers.remove(index));
    Ok(total)
}
