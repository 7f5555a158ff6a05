//! What a tracer is.

/// What a tracer makes of hits.
#[derive(Clone, Copy, Debug, PartialEq, Eq)]
pub enum TracerRule {
    /// It counts them. Its one number is the total, which stands still at 2^64 - 1.
    Count,
    /// It counts them, and keeps the addresses of the last 16 sites that were hit. Its numbers are the total, and then these
    /// addresses, oldest first.
    LastSites,
    /// What it does isn't told; only that its calls return.
    Untold,
}

/// Who is told of each call at a traced site while it is in a run's list.
///
/// A tracer is its rule, which no call changes, and a list of numbers. Of one whose rule is `Untold` nothing is claimed of
/// its numbers.
pub trait Tracer: Drop {
    ghost use Rattle.std.specs.Prelude.{◌≡◌};
    ghost use Rattle.tracer_ops.specs.Meaning.{IsAs, IsTotal, Meaning, hit};

    /// Its rule and its numbers.
    ghost meaning: { Self → Meaning };

    /// A processor called the tracer at the traced site that begins at an address.
    fn hit(&mut self, cpu: u8, site: u64)
        ensures { IsAs (meaning self.new) (hit site (meaning self.old)) };

    /// How many hits it has counted.
    fn total(&self) -> u64
        ensures { IsTotal (meaning self.now) result };
}
