//! The worker that patches.
ghost use Rattle.std.specs.Prelude.{◌≡◌, ◌≤◌, ◌<◌, ℕ, IfNone, IfSome, slice_index};
ghost use Rattle.live_text.specs.Own.{IsOwn};
ghost use Rattle.live_text.specs.Seats.{KnowsAll};
ghost use Rattle.live_engine.specs.LivePatch.{Advances, Hears, Waits};

use live_text::{LiveText, PatchSeat, Put};
use std::marker::Model;

/// What a turn of the patch worker did.
#[derive(Clone, Copy, Debug, PartialEq, Eq)]
pub enum Advance {
    /// It stored a byte or a request, or loaded from a processor that wasn't known to have acknowledged the last request
    /// that it has, or that it has left.
    Moved,
    /// It loaded the acknowledgement of a processor that hasn't acknowledged the last request; which one, and what it has
    /// acknowledged.
    Waiting { cpu: u8, ack: u64 },
    /// All chunks are done.
    Finished,
}

/// The worker that patches: it stores the bytes and requests of a plan, and asks the processors in turn for their
/// acknowledgements.
#[derive(Drop)]
pub struct LivePatch {
    cpus: u8,
    /// The processor that is asked next.
    next: u8,
}

impl Model for LivePatch {
    ghost use Rattle.std.specs.Prelude.{ℕ};

    ghost Value = { ℕ };

    ghost use Rattle.live_engine.specs.PatchInside.{cpus_of, IsSound};

    ghost view = { cpus_of };

    ghost invariant = { IsSound };
}

impl LivePatch {
    /// A worker for so many processors.
    pub fn new(cpus: u8) -> LivePatch
        ensures { result ≡ cpus }
    {
        LivePatch { cpus, next: 0 }
    }

    /// Does one turn, which makes at most one step on the shared words and waits for nothing: the due byte or request is
    /// stored where every processor is known to have acknowledged the last request or to have left; else the
    /// acknowledgement is loaded of a processor that isn't. The worker has to be made for as many processors as the text.
    pub fn advance(&mut self, text: &LiveText, seat: &mut PatchSeat) -> Advance
        requires own { IsOwn text.now seat.old }
        requires cpus { self.old ≡ text.now.cpus }
        ensures own { IsOwn text.now seat.new }
        ensures cpus { self.new ≡ self.old }
        ensures advances { Advances seat.old.view seat.new.view result }
    {
        match text.put_next(seat) {
            Put::Stored => Advance::Moved,
            Put::Wait => self.ask(text, seat),
            Put::Finished => Advance::Finished,
        }
    }

    /// Loads the acknowledgement of a processor that isn't known to have acknowledged the last request.
    fn ask(&mut self, text: &LiveText, seat: &mut PatchSeat) -> Advance
        requires own { IsOwn text.now seat.old }
        requires cpus { self.old ≡ text.now.cpus }
        requires waits { ¬ KnowsAll seat.old.view.patch }
        ensures own { IsOwn text.now seat.new }
        ensures cpus { self.new ≡ self.old }
        ensures moved { result ≡ Advance.Moved → Hears seat.old.view seat.new.view }
        ensures waiting { (cpu ack : ℕ) → result ≡ Advance.Waiting cpu ack → Waits cpu ack seat.old.view seat.new.view }
        ensures unfinished { result ≡ Advance.Finished → ⊥ }
    {
        let cpu = self.lacking(text, seat);
        let stored = text.stored(seat);
        let ack = text.ack_of(seat, cpu);
        self.next = cpu + 1;
        if ack < stored {
            Advance::Waiting { cpu, ack }
        } else {
            Advance::Moved
        }
    }

    /// The processor to ask: the next one that isn't known to have acknowledged the last request.
    fn lacking(&self, text: &LiveText, seat: &PatchSeat) -> u8
        requires own { IsOwn text.now seat.now }
        requires cpus { self.now ≡ text.now.cpus }
        requires waits { ¬ KnowsAll seat.now.view.patch }
        ensures below { result < text.now.cpus }
        ensures lacks { slice_index seat.now.view.patch.bounds result < seat.now.view.patch.stored }
    {
        seat.keeps();
        if let Some(cpu) = first_lacking(text, seat, self.next, self.cpus) {
            return cpu;
        }
        match first_lacking(text, seat, 0, self.next) {
            Some(cpu) => cpu,
            None => unreachable!(),
        }
    }
}

/// The first of the processors from one on and before another that isn't known to have acknowledged the last request.
fn first_lacking(text: &LiveText, seat: &PatchSeat, from: u8, to: u8) -> Option<u8>
    requires own { IsOwn text.now seat.now }
    requires known { to ≤ text.now.cpus }
    ensures from { IfSome result (λ cpu. from ≤ cpu) }
    ensures to { IfSome result (λ cpu. cpu < to) }
    ensures lacks { IfSome result (λ cpu. slice_index seat.now.view.patch.bounds cpu < seat.now.view.patch.stored) }
    ensures others { IfNone result ((cpu : ℕ) → from ≤ cpu → cpu < to → seat.now.view.patch.stored ≤ slice_index seat.now.view.patch.bounds cpu) }
{
    let stored = text.stored(seat);
    for cpu in from..to {
        if text.known(seat, cpu) < stored {
            return Some(cpu);
        }
    }
    None
}
