//! The keys of a module, and the update that is open.
ghost use Rattle.std.specs.Prelude.{◌≡◌};

use insn_forms::Changes;
use key_state::{Keys, Outcome};
use module_image::{Command, Image};
use poke_batch::Batch;
use stale_fetch::WindowText;

/// What the beginning of an update found.
#[derive(Debug, PartialEq, Eq, Drop)]
pub enum Begun {
    /// It has ended: refused at a count or by a clash, or nothing changes in the text.
    Ended(Outcome),
    /// It is open, with n sites to change.
    Open(u32),
}

impl Begun {
    ghost use Rattle.std.specs.Prelude.{◌≡◌};
    ghost use Rattle.script_runner.specs.Updating.{is_ended};

    /// Whether it has ended.
    pub fn is_ended(&self) -> bool
        ensures { result ≡ is_ended self.now }
    {
        matches!(self, Begun::Ended(_))
    }
}

/// The keys of a module, and the update that is open.
#[derive(Drop)]
pub struct Updater {
    pub keys: Keys,
    /// Room for the changes of an update that begins.
    pub changes: Changes,
    pub batch: Batch,
    /// How many updates have begun.
    pub updates: u32,
    /// How many sites the last update changes that was opened.
    pub sites: u32,
}

impl Updater {
    ghost use Rattle.std.specs.Prelude.{◌≡◌, ◌≤◌, ℕ, ◌+◌, length, None, IfSome};
    ghost use Rattle.key_state.specs.Changes.{AreStatesOf};
    ghost use Rattle.module_image.specs.Command.{IsCommandOf};
    ghost use Rattle.switching.specs.Said.{said_begun};
    ghost use Rattle.script_runner.specs.Updating.{CanBegin, begun_lines, finds, states_begun, update_begun};

    /// Begins the update of a command over the bytes that a text holds: refused, it changes nothing; else the keys hold what they
    /// hold after it, and where sites change it is open.
    pub fn begin(&mut self, image: &Image, text: &WindowText, command: &Command) -> Begun
        requires states { AreStatesOf image.now self.old.keys }
        requires command { IsCommandOf image.now command.now }
        requires room { length image.now.sites ≤ self.old.changes.room }
        requires closed { self.old.batch.update ≡ None }
        requires ready { CanBegin image.now text.now self.old.batch.sites self.old.keys command.now }
        requires few { self.old.updates ≤ 64 }
        requires few_sites { self.old.batch.sites ≤ 1024 }
        ensures keys { self.new.keys ≡ states_begun self.old.keys (finds image.now text.now self.old.keys command.now) }
        ensures batch { self.new.batch ≡ record self.old.batch { update = update_begun self.old.batch.cpus (finds image.now text.now self.old.keys command.now) } }
        ensures sites { IfSome self.new.batch.update (λ walk. self.new.sites ≡ length walk.changes) }
        ensures room { self.new.changes.room ≡ self.old.changes.room }
        ensures updates { self.new.updates ≡ self.old.updates + 1 }
        ensures said { (update : ℕ) → begun_lines update result ≡ said_begun update (finds image.now text.now self.old.keys command.now) }
    {
        self.updates += 1;
        if let Err(refused) = self.keys.changes(image, command, &mut self.changes) {
            return Begun::Ended(Outcome::Count(refused.count()));
        }
        let sites = self.changes.list().len() as u32;
        if sites == 0 {
            self.keys.commit(image, command);
            return Begun::Ended(Outcome::Done(0));
        }
        match self.batch.fill(&self.changes, text) {
            Ok(()) => {
                self.keys.commit(image, command);
                self.sites = sites;
                Begun::Open(sites)
            }
            Err(clash) => Begun::Ended(Outcome::Clash(clash)),
        }
    }
}
