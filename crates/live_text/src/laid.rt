//! A plan as the code keeps it: the bytes of all sites, the writes to them, and where the requests stand.
ghost use Rattle.std.specs.Prelude.{◌≡◌, IfOk};
ghost use Rattle.live_text.specs.Plan.{Stands};
ghost use Rattle.live_text.specs.Past.{cut};
ghost use Rattle.live_text.specs.Steps.{first_words};
ghost use Rattle.live_text.specs.Laid.{laid_shape, IsLaid};

use crate::layout::{bytes_of, rounds_of};
use crate::plan::LivePlan;
use crate::view::PlacedWrite;
use poke_base::NoMemory;
use std::alloc::Global;

/// A plan, and the same as numbers.
#[derive(Drop)]
pub struct Laid {
    pub plan: LivePlan,
    /// How many processors there are.
    pub cpus: u8,
    /// The number of each site's first byte.
    pub firsts: Vec<u64>,
    /// The bytes of the sites at the start.
    pub starts: Vec<u8>,
    /// The byte writes of all chunks, in order.
    pub writes: Vec<PlacedWrite>,
    /// At r the number of writes before request r; the last is the number of all writes.
    pub cuts: Vec<u64>,
}

impl Laid {
    /// A plan that stands, for so many processors.
    ///
    /// # Errors
    /// Out of memory.
    pub fn of(alloc: Global, plan: LivePlan, cpus: u8) -> Result<Laid, NoMemory>
        requires { Stands plan }
        ensures laid { IfOk result IsLaid }
        ensures plan { IfOk result (λ laid. laid.plan ≡ plan) }
        ensures cpus { IfOk result (λ laid. laid.cpus ≡ cpus) }
    {
        let (firsts, starts) = bytes_of(alloc, &plan.sites)?;
        let rounds = rounds_of(alloc, &plan.sites, &plan.chunks)?;
        Ok(Laid {
            plan,
            cpus,
            firsts,
            starts,
            writes: rounds.writes,
            cuts: rounds.cuts,
        })
    }

    /// How many writes stand before request `r`; past the last request all of them.
    pub fn cut(&self, r: u64) -> u64
        ensures { result ≡ cut (laid_shape self.now) r }
    {
        match self.cuts.get(r as usize) {
            Some(cut) => *cut,
            None => self.writes.len() as u64,
        }
    }

    /// The shared words at the start: the bytes of the sites, and zeros.
    ///
    /// # Errors
    /// Out of memory.
    pub fn words(&self, alloc: Global) -> Result<Vec<u64>, NoMemory>
        ensures { IfOk result (λ words. words.items ≡ first_words (laid_shape self.now)) }
    {
        let mut words = Vec::new(alloc);
        for byte in &self.starts {
            words.push(u64::from(*byte))?;
        }
        for _ in 0..usize::from(self.cpus) + 1 {
            words.push(0)?;
        }
        Ok(words)
    }
}
