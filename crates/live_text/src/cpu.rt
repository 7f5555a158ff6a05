//! The seat of a processor.
ghost use Rattle.std.specs.Prelude.{◌≡◌, false};
ghost use Rattle.live_text.specs.Seats.{Sits};

use crate::rule::Place;
use std::marker::Model;

/// The seat of a processor. It may move to another thread.
#[derive(Drop)]
pub struct CpuSeat {
    pub(crate) seat: Place,
    /// The processor's number.
    pub(crate) number: u8,
    /// Its acknowledgement.
    pub(crate) ack: u64,
    /// The byte that it has cached of each byte of the sites.
    pub(crate) cache: Vec<Option<u8>>,
}

impl Model for CpuSeat {
    ghost use Rattle.live_text.specs.Seats.{Placed};

    ghost Value = { Placed };

    ghost use Rattle.live_text.specs.CpuKept.{cpu_placed, KeepsCpu};

    ghost view = { cpu_placed };

    ghost invariant = { KeepsCpu };
}

impl CpuSeat {
    /// What holds of every seat of a processor that hasn't left. Nothing is done.
    pub fn keeps(&self)
        ensures { self.now.view.cpu.left ≡ false → Sits self.now.view }
    {
        let _seat = &self.seat;
    }
}
