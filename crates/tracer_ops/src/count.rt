//! A tracer that counts.
ghost use Rattle.std.specs.Prelude.{◌≡◌, [], ◌∷◌};
ghost use Rattle.tracer_ops.specs.Meaning.{Meaning};
ghost use Rattle.tracer_ops.specs.declared.tracer.TracerRule.TheVariants.{Count as Counting};

use crate::Tracer;

/// Counts hits; at 2^64 - 1 it stays.
#[derive(Debug, Drop)]
pub struct Count {
    total: u64,
}

impl Count {
    /// A tracer that has counted no hit.
    pub fn new() -> Count
        ensures { ⟦<Count as Tracer>⟧.meaning result ≡ record { rule = Counting; numbers = 0 ∷ [] } }
    {
        Count { total: 0 }
    }
}

impl Tracer for Count {
    ghost meaning = { λ count. record { rule = Counting; numbers = count.total ∷ [] } };

    fn hit(&mut self, _cpu: u8, _site: u64) {
        self.total = self.total.saturating_add(1);
    }

    fn total(&self) -> u64 {
        self.total
    }
}

#[cfg(test)]
mod tests {
    use super::Count;
    use crate::Tracer;

    #[test]
    fn a_total_stays_at_the_greatest(rt: HostRuntime) {
        let greatest = u64::MAX;
        for (before, want) in [(0, 1), (greatest - 1, greatest), (greatest, greatest)] {
            let mut count = Count { total: before };
            count.hit(3, 0x40_1000);
            assert_eq!(rt; count.total(), want, "after {before}");
        }
    }
}
