//! The shared words, and what the seats do with them.
ghost use Rattle.std.specs.Prelude.{◌≡◌, ◌≤◌, ◌<◌, ◌+◌, ◌^◌, ◌-◌, false, None, length, replicate, slice_index, IfOk, OnOk};
ghost use Rattle.live_text.specs.Flat.{shape_of};
ghost use Rattle.live_text.specs.Plan.{Stands};
ghost use Rattle.live_text.specs.Laid.{IsLaid};
ghost use Rattle.live_text.specs.Steps.{first_view, after_splits, seated, wrote, requested, loaded_ack, fetched, looked, acked, gone};
ghost use Rattle.live_text.specs.Seats.{KnowsAll, WriteDue, RequestDue};
ghost use Rattle.live_text.specs.Own.{IsOwn, HasByte, byte_number, IsSeated, AreSeated, AreBytes};
ghost use Rattle.live_text.specs.Calls.{Puts, Reads, HadSince};

use crate::cpu::CpuSeat;
use crate::laid::Laid;
use crate::patch::PatchSeat;
use crate::plan::LivePlan;
use crate::rule::{
    Acknowledges, Fetches, Leaves, LoadsAck, Looks, Requests, Seats, Shared, Writes,
};
use poke_base::NoMemory;
use std::alloc::Global;
use std::marker::Model;

/// What the patch seat did.
#[derive(Clone, Copy, Debug, PartialEq, Eq)]
pub enum Put {
    /// It stored the due byte or request.
    Stored,
    /// It doesn't know that all processors have acknowledged the last request.
    Wait,
    /// The last chunk is finished.
    Finished,
}

/// The words that running threads share: the bytes of the sites, the number of requests, and an
/// acknowledgement for each processor. Threads share it by reference.
#[derive(Drop)]
pub struct LiveText {
    table: Shared,
    laid: Laid,
    /// Room for the bytes at the end.
    room: Vec<u8>,
}

impl Model for LiveText {
    ghost use Rattle.live_text.specs.Own.{TextState};

    ghost Value = { TextState };

    ghost use Rattle.live_text.specs.TextKept.{text_state, KeepsText};

    ghost view = { text_state };

    ghost invariant = { KeepsText };
}

impl LiveText {
    /// The shared words of a plan that stands, for 1 to 16 processors, with the seat of the thread that
    /// patches and the seats of the processors, by number. All memory is taken here.
    ///
    /// # Errors
    /// Out of memory; the plan is gone.
    pub fn new(
        alloc: Global,
        plan: LivePlan,
        cpus: u8,
    ) -> Result<(LiveText, PatchSeat, Vec<CpuSeat>), NoMemory>
        requires some_cpus { 1 ≤ cpus }
        requires most_cpus { cpus ≤ 16 }
        requires stands { Stands plan }
        ensures plan { IfOk result (λ made. made.0.plan ≡ plan) }
        ensures cpus { IfOk result (λ made. made.0.cpus ≡ cpus) }
        ensures own { IfOk result (λ made. IsOwn made.0 made.1) }
        ensures patch { IfOk result (λ made. made.1.view ≡ after_splits (shape_of plan cpus) cpus) }
        ensures seats { IfOk result (λ made. AreSeated made.0 cpus made.2.items) }
    {
        let laid = Laid::of(alloc, plan, cpus)?;
        let (text, mut patch) = LiveText::alone(alloc, laid)?;
        let seats = text.split_all(alloc, &mut patch, cpus)?;
        Ok((text, patch, seats))
    }

    /// The seats of all processors.
    ///
    /// # Errors
    /// Out of memory.
    fn split_all(
        &self,
        alloc: Global,
        patch: &mut PatchSeat,
        cpus: u8,
    ) -> Result<Vec<CpuSeat>, NoMemory>
        requires own { IsOwn self.now patch.old }
        requires cpus { cpus ≡ self.now.cpus }
        requires first { patch.old.view ≡ first_view (shape_of self.now.plan self.now.cpus) }
        ensures own { OnOk result (IsOwn self.now patch.new) }
        ensures patch { OnOk result (patch.new.view ≡ after_splits (shape_of self.now.plan self.now.cpus) cpus) }
        ensures seats { IfOk result (λ seats. AreSeated self.now cpus seats.items) }
    {
        let mut seats = Vec::with_capacity(alloc, usize::from(cpus))?;
        for number in 0..cpus {
            let seat = self.split(alloc, patch, number)?;
            seats.push_reserved(seat);
        }
        Ok(seats)
    }

    /// The shared words, with the seat of the thread that patches alone.
    ///
    /// # Errors
    /// Out of memory.
    fn alone(alloc: Global, laid: Laid) -> Result<(LiveText, PatchSeat), NoMemory>
        requires laid { IsLaid laid }
        requires stands { Stands laid.plan }
        ensures plan { IfOk result (λ made. made.0.plan ≡ laid.plan) }
        ensures cpus { IfOk result (λ made. made.0.cpus ≡ laid.cpus) }
        ensures own { IfOk result (λ made. IsOwn made.0 made.1) }
        ensures patch { IfOk result (λ made. made.1.view ≡ first_view (shape_of laid.plan laid.cpus)) }
    {
        let words = laid.words(alloc)?;
        let room = Vec::with_capacity(alloc, laid.starts.len())?;
        let bounds = zeros(alloc, laid.cpus)?;
        let (table, seat) = Shared::of_words(alloc, words.as_slice(), &laid)?;
        let text = LiveText { table, laid, room };
        let patch = PatchSeat {
            seat,
            done: 0,
            stored: 0,
            bounds,
        };
        Ok((text, patch))
    }

    /// The seat of the next processor.
    ///
    /// # Errors
    /// Out of memory.
    fn split(&self, alloc: Global, patch: &mut PatchSeat, number: u8) -> Result<CpuSeat, NoMemory>
        requires own { IsOwn self.now patch.old }
        requires next { patch.old.view.patch.split ≡ number }
        requires below { number < self.now.cpus }
        ensures own { OnOk result (IsOwn self.now patch.new) }
        ensures patch { OnOk result (patch.new.view ≡ seated patch.old.view) }
        ensures seat { IfOk result (IsSeated self.now number) }
    {
        let cache = no_bytes(alloc, self.laid.starts.len())?;
        let seat = self.table.shared.split_seat::<Seats>(&mut patch.seat);
        Ok(CpuSeat {
            seat,
            number,
            ack: 0,
            cache,
        })
    }

    /// The bytes of the sites after what the patch seat has stored, at whatever place it stands. No
    /// thread shares the words any more.
    pub fn finish(self, patch: PatchSeat, cpus: Vec<CpuSeat>) -> Vec<u8>
        requires own { IsOwn self patch }
        ensures bytes { AreBytes patch.view.shape patch.view.patch.done result.items }
    {
        drop(cpus);
        let LiveText {
            table,
            laid,
            mut room,
        } = self;
        let PatchSeat { seat, .. } = patch;
        let closed = table.close_with(seat);
        for number in 0..laid.starts.len() {
            room.push_reserved(closed.word(number) as u8);
        }
        closed.free();
        room
    }

    /// The plan.
    pub fn plan(&self) -> &LivePlan
        ensures { result.now ≡ self.now.plan }
    {
        &self.laid.plan
    }

    /// How many requests the patch seat has stored.
    pub fn stored(&self, seat: &PatchSeat) -> u64
        ensures { result ≡ seat.now.view.patch.stored }
    {
        seat.stored
    }

    /// The greatest acknowledgement of a processor that the patch seat has loaded, 0 at first.
    pub fn known(&self, seat: &PatchSeat, cpu: u8) -> u64
        requires own { IsOwn self.now seat.now }
        requires cpu { cpu < self.now.cpus }
        ensures { result ≡ slice_index seat.now.view.patch.bounds cpu }
    {
        seat.bounds[usize::from(cpu)]
    }

    /// The acknowledgement of a processor's seat.
    pub fn acked(&self, seat: &CpuSeat) -> u64
        ensures { result ≡ seat.now.view.cpu.ack }
    {
        seat.ack
    }

    /// Stores the due byte or request, where the seat knows that every processor has acknowledged the
    /// last request or left. It waits for nothing and makes at most one step.
    pub fn put_next(&self, seat: &mut PatchSeat) -> Put
        requires own { IsOwn self.now seat.old }
        ensures own { IsOwn self.now seat.new }
        ensures puts { Puts seat.old.view seat.new.view result }
    {
        if !seat.knows_all() {
            return Put::Wait;
        }
        let laid = &self.laid;
        if seat.done < laid.cut(seat.stored + 1) {
            self.store_byte(seat);
            return Put::Stored;
        }
        if seat.stored + 1 < laid.cuts.len() as u64 {
            self.store_request(seat);
            return Put::Stored;
        }
        Put::Finished
    }

    /// Stores the due byte.
    fn store_byte(&self, seat: &mut PatchSeat)
        requires own { IsOwn self.now seat.old }
        requires all { KnowsAll seat.old.view.patch }
        requires due { WriteDue seat.old.view }
        ensures own { IsOwn self.now seat.new }
        ensures wrote { seat.new.view ≡ wrote seat.old.view }
    {
        let laid = &self.laid;
        let write = laid.writes[seat.done as usize];
        self.table.shared.store::<Writes>(
            &mut seat.seat,
            write.place as usize,
            u64::from(write.byte),
        );
        seat.done += 1;
    }

    /// Stores the due request.
    fn store_request(&self, seat: &mut PatchSeat)
        requires own { IsOwn self.now seat.old }
        requires all { KnowsAll seat.old.view.patch }
        requires due { RequestDue seat.old.view }
        ensures own { IsOwn self.now seat.new }
        ensures requested { seat.new.view ≡ requested seat.old.view }
    {
        let laid = &self.laid;
        let next = seat.stored + 1;
        self.table
            .shared
            .store::<Requests>(&mut seat.seat, laid.starts.len(), next);
        seat.stored = next;
    }

    /// Loads the acknowledgement of a processor, which the seat knows afterwards. It is 2^64 - 1 once
    /// the processor has left.
    pub fn ack_of(&self, seat: &mut PatchSeat, cpu: u8) -> u64
        requires own { IsOwn self.now seat.old }
        requires cpu { cpu < self.now.cpus }
        ensures own { IsOwn self.now seat.new }
        ensures loaded { seat.new.view ≡ loaded_ack cpu result seat.old.view }
        // It never falls.
        ensures rises { slice_index seat.old.view.patch.bounds cpu ≤ result }
    {
        let laid = &self.laid;
        let word = laid.starts.len() + 1 + usize::from(cpu);
        let ack = self.table.shared.load::<LoadsAck>(&mut seat.seat, word);
        seat.bounds[usize::from(cpu)] = ack;
        ack
    }

    /// Byte `j` of a site: the cached one where there is one and `fresh` is false, else the loaded one,
    /// which is cached.
    pub fn byte(&self, seat: &mut CpuSeat, site: u32, j: u8, fresh: bool) -> u8
        requires own { IsOwn self.now seat.old }
        requires stays { seat.old.view.cpu.left ≡ false }
        requires byte { HasByte self.now.plan site j }
        ensures own { IsOwn self.now seat.new }
        ensures reads { Reads fresh (byte_number self.now.plan site j) seat.old.view result seat.new.view }
        ensures had { HadSince seat.new.view (byte_number self.now.plan site j) result }
    {
        let number = self.number_of(site, j);
        let cached = seat.cache[number];
        match cached {
            Some(byte) if !fresh => byte,
            _ => self.fetch(seat, number),
        }
    }

    /// The number of byte `j` of a site.
    fn number_of(&self, site: u32, j: u8) -> usize
        requires byte { HasByte self.now.plan site j }
        ensures number { result ≡ byte_number self.now.plan site j }
        ensures below { result < length (shape_of self.now.plan self.now.cpus).starts }
    {
        let laid = &self.laid;
        laid.firsts[site as usize] as usize + usize::from(j)
    }

    /// Loads a byte by its number.
    fn fetch(&self, seat: &mut CpuSeat, number: usize) -> u8
        requires own { IsOwn self.now seat.old }
        requires stays { seat.old.view.cpu.left ≡ false }
        requires below { number < length (shape_of self.now.plan self.now.cpus).starts }
        ensures own { IsOwn self.now seat.new }
        ensures fetched { seat.new.view ≡ fetched number result seat.old.view }
        ensures had { HadSince seat.new.view number result }
    {
        let word = self.table.shared.load::<Fetches>(&mut seat.seat, number);
        let byte = word as u8;
        seat.cache[number] = Some(byte);
        byte
    }

    /// Loads how many requests were stored. It is the greatest such number that the seat has loaded.
    pub fn generation(&self, seat: &mut CpuSeat) -> u64
        requires own { IsOwn self.now seat.old }
        requires stays { seat.old.view.cpu.left ≡ false }
        ensures own { IsOwn self.now seat.new }
        ensures looked { seat.new.view ≡ looked result seat.old.view }
        // It never falls.
        ensures rises { seat.old.view.cpu.greatest ≤ result }
    {
        let word = self.laid.starts.len();
        self.table.shared.load::<Looks>(&mut seat.seat, word)
    }

    /// Acknowledges request `g`, which isn't before the one that was acknowledged last nor after the
    /// greatest that was loaded. The cache is empty afterwards.
    pub fn acknowledge(&self, seat: &mut CpuSeat, g: u64)
        requires own { IsOwn self.now seat.old }
        requires stays { seat.old.view.cpu.left ≡ false }
        requires least { seat.old.view.cpu.ack ≤ g }
        requires most { g ≤ seat.old.view.cpu.greatest }
        ensures own { IsOwn self.now seat.new }
        ensures acked { seat.new.view ≡ acked g seat.old.view }
    {
        let laid = &self.laid;
        let word = laid.starts.len() + 1 + usize::from(seat.number);
        self.table
            .shared
            .store::<Acknowledges>(&mut seat.seat, word, g);
        seat.ack = g;
        seat.cache.as_mut_slice().fill(None);
    }

    /// The processor leaves: nobody waits for it any more, and its seat reads nothing afterwards.
    pub fn leave(&self, seat: &mut CpuSeat)
        requires own { IsOwn self.now seat.old }
        requires stays { seat.old.view.cpu.left ≡ false }
        ensures own { IsOwn self.now seat.new }
        ensures gone { seat.new.view ≡ gone seat.old.view }
    {
        let laid = &self.laid;
        let word = laid.starts.len() + 1 + usize::from(seat.number);
        self.table
            .shared
            .store::<Leaves>(&mut seat.seat, word, u64::MAX);
        seat.ack = u64::MAX;
    }
}

/// An acknowledgement of 0 for each processor.
///
/// # Errors
/// Out of memory.
fn zeros(alloc: Global, count: u8) -> Result<Vec<u64>, NoMemory>
    ensures { IfOk result (λ made. made.items ≡ replicate count 0) }
{
    let mut made = Vec::new(alloc);
    for _ in 0..count {
        made.push(0)?;
    }
    Ok(made)
}

/// A cache for so many bytes, with nothing in it.
///
/// # Errors
/// Out of memory.
fn no_bytes(alloc: Global, count: usize) -> Result<Vec<Option<u8>>, NoMemory>
    ensures { IfOk result (λ made. made.items ≡ replicate count None) }
{
    let mut made = Vec::new(alloc);
    for _ in 0..count {
        made.push(None)?;
    }
    Ok(made)
}
