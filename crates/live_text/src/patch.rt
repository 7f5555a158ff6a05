//! The seat of the thread that patches.
ghost use Rattle.std.specs.Prelude.{MatchBool};
ghost use Rattle.live_text.specs.Seats.{Patches, KnowsAll};

use crate::rule::Place;
use std::marker::Model;

/// The seat of the thread that patches. It may move to another thread.
#[derive(Drop)]
pub struct PatchSeat {
    pub(crate) seat: Place,
    /// How many writes it has stored.
    pub(crate) done: u64,
    /// How many requests it has stored.
    pub(crate) stored: u64,
    /// The acknowledgement of each processor that it loaded last.
    pub(crate) bounds: Vec<u64>,
}

impl Model for PatchSeat {
    ghost use Rattle.live_text.specs.Seats.{Placed};

    ghost Value = { Placed };

    ghost use Rattle.live_text.specs.PatchKept.{patch_placed, KeepsPatch};

    ghost view = { patch_placed };

    ghost invariant = { KeepsPatch };
}

impl PatchSeat {
    /// What holds of every patch seat. Nothing is done.
    pub fn keeps(&self)
        ensures { Patches self.now.view }
    {
        let _seat = &self.seat;
    }

    /// Whether every processor is known to have acknowledged the last request or to have left.
    pub(crate) fn knows_all(&self) -> bool
        ensures { MatchBool result (KnowsAll self.now.view.patch) (¬ KnowsAll self.now.view.patch) }
    {
        for bound in &self.bounds {
            if *bound < self.stored {
                return false;
            }
        }
        true
    }
}
