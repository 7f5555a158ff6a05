//! The words by which events are chosen.
ghost use Rattle.std.specs.Prelude.{◌≡◌};

use rand_core::SeedableRng;
use rand_core::utils::NextWord;
use rand_xoshiro::SplitMix64;
use std::marker::Model;

/// The words by which events are chosen: those of SplitMix64, whose state begins as the seed.
#[derive(Drop)]
pub struct Words {
    generator: SplitMix64,
}

impl Model for Words {
    ghost use Rattle.std.specs.Prelude.{ℕ};

    ghost Value = { ℕ };

    ghost view = { λ w. w.generator };
}

impl Words {
    ghost use Rattle.std.specs.Prelude.{◌≡◌};
    ghost use Rattle.rand_xoshiro.specs.SplitMix64.{mix_u64};

    /// The words of a seed.
    pub fn from_seed(seed: u64) -> Words
        ensures { result ≡ seed }
    {
        Words {
            generator: SplitMix64::seed_from_u64(seed),
        }
    }

    /// The next word.
    pub fn next(&mut self) -> u64
        ensures word { result ≡ (mix_u64 self.old).0 }
        ensures state { self.new ≡ (mix_u64 self.old).1 }
    {
        self.generator.next_word()
    }
}
