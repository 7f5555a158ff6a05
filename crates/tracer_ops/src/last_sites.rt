//! A tracer that keeps the last sites.
ghost use Rattle.std.specs.Prelude.{◌≡◌, [], ◌∷◌, ◌++◌};
ghost use Rattle.tracer_ops.specs.Meaning.{Meaning, last_16};
ghost use Rattle.tracer_ops.specs.declared.tracer.TracerRule.TheVariants.{LastSites as ListingSites};

use crate::Tracer;
use arrayvec::ArrayVec;

/// Counts hits, and keeps the addresses of the last 16 sites that were hit.
#[derive(Debug, Drop)]
pub struct LastSites {
    /// How many hits there were; at 2^64 - 1 it stays.
    total: u64,
    /// The sites, oldest first.
    sites: ArrayVec<u64, 16>,
}

impl LastSites {
    /// A tracer that has seen no hit.
    pub fn new() -> LastSites
        ensures { ⟦<LastSites as Tracer>⟧.meaning result ≡ record { rule = ListingSites; numbers = 0 ∷ [] } }
    {
        LastSites {
            total: 0,
            sites: ArrayVec::new(),
        }
    }
}

impl Tracer for LastSites {
    ghost meaning = { λ last. record { rule = ListingSites; numbers = last.total ∷ last.sites.items } };

    fn hit(&mut self, _cpu: u8, site: u64) {
        self.total = self.total.saturating_add(1);
        add_site(&mut self.sites, site);
    }

    fn total(&self) -> u64 {
        self.total
    }
}

/// Adds a site behind the others; where 16 are there the oldest goes.
fn add_site(sites: &mut ArrayVec<u64, 16>, site: u64)
    ensures { sites.new.items ≡ last_16 (sites.old.items ++ site ∷ []) }
{
    if sites.is_full() {
        sites.remove(0);
    }
    sites.push(site);
}

#[cfg(test)]
mod tests {
    use super::LastSites;
    use crate::Tracer;
    use arrayvec::ArrayVec;

    #[test]
    fn the_last_16_sites_are_kept(rt: HostRuntime) {
        for (hits, oldest) in [(0, 0), (1, 0), (15, 0), (16, 0), (17, 1), (40, 24)] {
            let mut last = LastSites::new();
            for site in 0..hits {
                last.hit(0, site);
            }
            assert_eq!(rt; last.total(), hits);
            assert!(rt;
                last.sites.iter().copied().eq(oldest..hits),
                "after {hits} hits"
            );
        }
        let mut last = LastSites {
            total: u64::MAX,
            sites: ArrayVec::new(),
        };
        last.hit(0, 0x40_1000);
        assert_eq!(rt; last.total(), u64::MAX);
        assert_eq!(rt; last.sites.as_slice(), &[0x40_1000][..]);
    }
}
