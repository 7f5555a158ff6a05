//! The open update, one due event at a time (Linux `arch/x86/kernel/alternative.c`, `text_poke_bp_batch`).
ghost use Rattle.std.specs.Prelude.{◌≡◌, ◌≤◌, ◌<◌, All, AllPairs, Some, None, length, map};
ghost use Rattle.std.specs.List.{list_all};
ghost use Rattle.poke_batch.specs.Inside.{change_of};
ghost use Rattle.poke_batch.specs.Walk.{new_form};

use crate::patch::{Patch, patch_all};
use crate::stage::{Progress, Stage};
use insn_forms::{Changes, Form, Held};
use poke_base::{CodeBytes, NoMemory};
use std::alloc::Global;
use std::marker::Model;
use thiserror::Error;

/// How many processors there may be.
const MOST_CPUS: usize = 16;

/// A site that holds other bytes than those of the form that it is recorded to hold.
#[derive(Debug, PartialEq, Eq, Drop, Error)]
#[error("the site at {at:x} holds other bytes than those of its old form")]
pub struct Clash {
    /// The address of the site.
    pub at: u64,
    /// The bytes that the text holds there.
    pub found: CodeBytes,
    /// The bytes of the form that was expected.
    pub expected: CodeBytes,
}

/// What is to be done next.
#[derive(Clone, Copy, Debug, PartialEq, Eq)]
pub enum Due {
    /// No update is open.
    Idle,
    /// A byte is to be written at an address.
    Write { at: u64, byte: u8 },
    /// All processors are to be asked to serialise.
    Request,
    /// The request was made, and not every processor has acknowledged it.
    Wait,
    /// All items were done, and the update is to be closed.
    Return,
}

/// The update that is open, if one is, and how far its poke has come.
///
/// It takes all its memory when it is made. The sites are poked in chunks of 256. In each chunk INT3
/// goes into the first bytes, then the tails are written, then the first bytes, and after each of the
/// three every processor has to acknowledge a request.
#[derive(Drop)]
pub struct Batch {
    sites: u32,
    cpus: u8,
    /// The changes of the open update, or of the last one.
    patches: Vec<Patch>,
    progress: Progress,
    /// Which processors have acknowledged the request that stands.
    acks: [bool; MOST_CPUS],
}

impl Model for Batch {
    ghost use Rattle.poke_batch.specs.Walk.{BatchState};

    ghost Value = { BatchState };

    ghost use Rattle.poke_batch.specs.Inside.{state_of, IsSound};

    ghost view = { state_of };

    ghost invariant = { IsSound };
}

impl Batch {
    ghost use Rattle.std.specs.Prelude.{◌≡◌, ◌≢◌, ◌≤◌, ◌<◌, ℕ, true, false, [], ◌∷◌, length, Some, None, IfOk, OnOk, IfErr, OnErr, IfSome};
    ghost use Rattle.insn_forms.specs.Write.{Write};
    ghost use Rattle.poke_batch.specs.Poke.{items};
    ghost use Rattle.poke_batch.specs.Poke.Item.{Puts, Syncs};
    ghost use Rattle.poke_batch.specs.Walk.{opened, to_come, due_of, nobody, CanTake, moved, taken, has_taken, open_form};
    ghost use Rattle.poke_batch.specs.Underway.{IsUnderway};
    ghost use Rattle.poke_batch.specs.Clash.{CanPoke, NamesClash, first_clash};

    /// An idle batch with room for the changes of `sites` sites, for the processors 0 to `cpus - 1`.
    ///
    /// # Errors
    /// Out of memory.
    pub fn new(alloc: Global, sites: u32, cpus: u8) -> Result<Batch, NoMemory>
        requires some_cpus { 1 ≤ cpus }
        requires most_cpus { cpus ≤ 16 }
        ensures { IfOk result (λ batch. batch ≡ record { sites = sites; cpus = cpus; update = None }) }
    {
        let patches = Vec::with_capacity(alloc, sites as usize)?;
        Ok(Batch {
            sites,
            cpus,
            patches,
            progress: Progress {
                from: 0,
                stage: Stage::Idle,
            },
            acks: [false; MOST_CPUS],
        })
    }

    /// Opens an update. The batch has to be idle; the changes are at least one and at most as many
    /// as there is room for, ascend, don't overlap, lie in the text, and have spellings of one size.
    ///
    /// # Errors
    /// The first site that holds other bytes than those of its old form. The batch stays idle.
    pub fn fill<T: Held>(&mut self, changes: &Changes, text: &T) -> Result<(), Clash>
        requires idle { self.old.update ≡ None }
        requires some { 0 < length changes.now.list }
        requires room { length changes.now.list ≤ self.old.sites }
        requires ready { CanPoke (T.held_byte text.now) changes.now.list }
        ensures filled { OnOk result (self.new ≡ record self.old { update = opened self.old.cpus changes.now.list }) }
        ensures in_order { OnOk result (to_come self.new.update ≡ items changes.now.list) }
        ensures no_clash { OnOk result (first_clash (T.held_byte text.now) changes.now.list ≡ None) }
        ensures clash { IfErr result (NamesClash (T.held_byte text.now) changes.now.list) }
        ensures refused { OnErr result (self.new ≡ self.old) }
        ensures underway { IfSome self.new.update (IsUnderway self.new.cpus) }
    {
        // No update is open until all sites were tried.
        self.progress.from = 0;
        self.progress.stage = Stage::Idle;
        patch_all(&mut self.patches, changes.list(), text)?;
        self.progress.stage = Stage::Trap(0);
        Ok(())
    }

    /// What is due next.
    pub fn due(&self) -> Due
        ensures due { result ≡ due_of self.now.update }
        // Some processor hasn't taken the request that is waited for.
        ensures lacks { result ≡ Due.Wait → ((cpu : ℕ) × (cpu < self.now.cpus) × (has_taken self.now.update cpu ≡ false)) }
        ensures underway { IfSome self.now.update (IsUnderway self.now.cpus) }
    {
        let chunk = self.progress.chunk(&self.patches);
        self.progress.stage.due(chunk)
    }

    /// Moves on after a due write, request or return, which the caller has done.
    pub fn took(&mut self)
        requires { CanTake (due_of self.old.update) }
        ensures step { IfSome self.old.update (λ walk. self.new ≡ record self.old { update = moved walk }) }
        ensures wrote { (w : Write) → due_of self.old.update ≡ Due.Write w.at w.byte → to_come self.old.update ≡ Puts w ∷ to_come self.new.update }
        ensures requested { due_of self.old.update ≡ Due.Request → (due_of self.new.update ≡ Due.Wait) × (to_come self.new.update ≡ to_come self.old.update) }
        ensures returned { due_of self.old.update ≡ Due.Return → (self.new.update ≡ None) × (to_come self.old.update ≡ []) }
        // A wait comes after a request alone.
        ensures unasked { due_of self.old.update ≢ Due.Request → due_of self.new.update ≢ Due.Wait }
        ensures same_sites { self.new.sites ≡ self.old.sites }
        ensures same_cpus { self.new.cpus ≡ self.old.cpus }
        // Nobody has taken a request that was just made.
        ensures nobody { due_of self.old.update ≡ Due.Request → IfSome self.new.update (λ walk. walk.took ≡ nobody self.new.cpus) }
        ensures underway { IfSome self.new.update (IsUnderway self.new.cpus) }
    {
        let chunk = self.progress.chunk(&self.patches);
        self.progress.stage = self.progress.stage.after_due(chunk);
    }

    /// Notes that a processor has taken the request that stands. After the last one the next phase
    /// is due. The processor has to be one that hasn't taken it yet.
    pub fn acked(&mut self, cpu: u8)
        requires waits { due_of self.old.update ≡ Due.Wait }
        requires known { cpu < self.old.cpus }
        requires first { has_taken self.old.update cpu ≡ false }
        ensures step { IfSome self.old.update (λ walk. self.new ≡ record self.old { update = Some (taken cpu walk) }) }
        // The last processor's acknowledgement passes the synchronisation, and no other one does.
        ensures last { ((other : ℕ) → other < self.old.cpus → other ≢ cpu → has_taken self.old.update other ≡ true) → to_come self.old.update ≡ Syncs ∷ to_come self.new.update }
        ensures passed { ((other : ℕ) → other < self.old.cpus → other ≢ cpu → has_taken self.old.update other ≡ true) → due_of self.new.update ≢ Due.Wait }
        ensures others { (other : ℕ) → other < self.old.cpus → other ≢ cpu → has_taken self.old.update other ≡ false → (due_of self.new.update ≡ Due.Wait) × (to_come self.new.update ≡ to_come self.old.update) }
        ensures same_sites { self.new.sites ≡ self.old.sites }
        ensures same_cpus { self.new.cpus ≡ self.old.cpus }
        ensures underway { IfSome self.new.update (IsUnderway self.new.cpus) }
    {
        self.acks[usize::from(cpu)] = true;
        if all_set(&self.acks[..usize::from(self.cpus)]) {
            self.acks = [false; MOST_CPUS];
            self.progress = self.progress.after_sync(self.patches.len());
        }
    }

    /// Whether a processor has taken the request that stands.
    pub fn has_acked(&self, cpu: u8) -> bool
        requires { cpu < self.now.cpus }
        ensures { result ≡ has_taken self.now.update cpu }
    {
        self.acks[usize::from(cpu)]
    }

    /// The new form, with its size, of the site of the open chunk that begins at an address. `None`
    /// exactly where no such site does.
    pub fn find(&self, at: u64) -> Option<(Form, u8)>
        ensures found { result ≡ open_form self.now.update at }
        ensures underway { IfSome self.now.update (IsUnderway self.now.cpus) }
    {
        if let Stage::Idle = self.progress.stage {
            return None;
        }
        form_at(self.progress.chunk(&self.patches), at)
    }
}

/// The new form, with its size, of the site that begins at an address. The sites ascend.
fn form_at(chunk: &[Patch], at: u64) -> Option<(Form, u8)>
    requires { AllPairs (λ p q. p.change.at < q.change.at) chunk.now }
    ensures { result ≡ new_form (map change_of chunk.now) at }
{
    match chunk.binary_search_by_key(&at, |patch| patch.change.at) {
        Ok(site) => {
            let form = chunk[site].change.new;
            Some((form, form.size()))
        }
        Err(_) => None,
    }
}

/// Whether all flags are set.
fn all_set(flags: &[bool]) -> bool
    ensures { result ≡ list_all (λ flag. flag) flags.now }
{
    flags.iter().all(|flag| *flag)
}
