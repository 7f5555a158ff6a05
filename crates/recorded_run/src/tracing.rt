//! What the events of a run do to the tracers that a caller hands in.
ghost use Rattle.std.specs.Prelude.{◌≡◌, ◌≤◌, ◌+◌, length, map};
ghost use Rattle.recorded_run.specs.Fed.{Fed, IsFed, fed};
ghost use Rattle.recorded_run.specs.Shown.{dropped_by};
ghost use Rattle.script_runner.specs.Operations.{operations_of};

use arrayvec::ArrayVec;
use script_runner::Acted;
use tracer_ops::{Tracer, drop_at, feed};

/// What became of a drop.
#[derive(Clone, Copy, Debug, Default, PartialEq, Eq)]
pub struct Dropped {
    /// The place that was to be dropped.
    pub place: u8,
    /// What the tracer there had counted; none where no tracer was there.
    pub total: Option<u64>,
}

/// The drops of a run, in order; a script has at most 64.
pub type Drops = ArrayVec<Dropped, 64>;

/// Tells the tracers what an event did: each is hit once, or the one at a place is dropped, which is answered and kept. There
/// has to be room for the drop.
pub fn tell(acted: &Acted, tracers: &mut Vec<Box<dyn Tracer>>, drops: &mut Drops)
    requires room { length drops.old.items + length (dropped_by acted.now) ≤ 64 }
    ensures fed { (f : Fed) → IsFed f (map (λ b. meaning b) tracers.old.items) drops.old.items → IsFed (fed f (operations_of acted.now)) (map (λ b. meaning b) tracers.new.items) drops.new.items }
{
    match *acted {
        Acted::Plain => {}
        Acted::Hit { cpu, site } => feed(tracers, cpu, site),
        Acted::Drop { place } => drops.push(Dropped {
            place,
            total: drop_at(tracers, place).ok(),
        }),
    }
}
