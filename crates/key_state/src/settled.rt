//! A module whose updates are done at once.
ghost use Rattle.std.specs.Prelude.{◌≡◌};
ghost use Rattle.key_state.specs.Changes.{first_foreign, is_foreign};

use crate::writing::{clash_at, write_changes};
use crate::{Keys, Outcome};
use insn_forms::{Change, Changes, Held};
use module_image::{Command, Image};
use poke_base::NoMemory;
use std::alloc::Global;
use std::marker::Model;

/// A module whose updates are done at once, each after the one before it has returned.
#[derive(Drop)]
pub struct Settled {
    base: u64,
    text: Vec<u8>,
    keys: Keys,
    changes: Changes,
}

impl Model for Settled {
    ghost use Rattle.key_state.specs.Settled.{SettledState};

    ghost Value = { SettledState };

    ghost view = { λ s. record { base = s.base; text = s.text.items; states = s.keys; changed = s.changes.list; room = s.changes.room } };
}

impl Settled {
    ghost use Rattle.std.specs.Prelude.{◌≡◌, [], IfOk};
    ghost use Rattle.key_state.specs.Outcome.{ending_of, made_by, outcome, settled};
    ghost use Rattle.key_state.specs.Settled.{IsSettledOf};
    ghost use Rattle.module_image.specs.Command.{IsCommandOf};
    ghost use Rattle.module_image.specs.Held.{first_states};

    /// The module as the file has it: its text after early writing, its keys as they are there, no site traced.
    ///
    /// # Errors
    /// Out of memory.
    pub fn new(alloc: Global, image: &Image) -> Result<Settled, NoMemory>
        ensures base { IfOk result (λ settled. settled.base ≡ image.now.base) }
        ensures text { IfOk result (λ settled. settled.text ≡ image.now.text) }
        ensures states { IfOk result (λ settled. settled.states ≡ first_states image.now) }
        ensures changed { IfOk result (λ settled. settled.changed ≡ []) }
        ensures of { IfOk result (IsSettledOf image.now) }
    {
        image.accepted();
        let text = Vec::from_slice(alloc, image.text())?;
        let keys = Keys::of(alloc, image)?;
        let changes = Changes::with_room(alloc, image.sites().len() as u32)?;
        Ok(Settled {
            base: image.base(),
            text,
            keys,
            changes,
        })
    }

    /// Does the update of a command: the keys hold what they hold after it, and the text what its sites want then. Where
    /// the key's count doesn't allow it, or a site that would change is foreign, text and keys stay as they are. It takes
    /// time linear in the sites.
    pub fn take(&mut self, image: &Image, command: &Command) -> Outcome
        requires of { IsSettledOf image.now self.old }
        requires command { IsCommandOf image.now command.now }
        ensures outcome { ending_of result ≡ outcome image.now self.old.states command.now }
        ensures states { self.new.states ≡ settled image.now self.old.states command.now }
        ensures changed { self.new.changed ≡ made_by image.now self.old.states command.now }
        ensures of { IsSettledOf image.now self.new }
        ensures kept { made_by image.now self.old.states command.now ≡ [] → self.new.text ≡ self.old.text }
    {
        image.accepted();
        if let Err(refused) = self.keys.changes(image, command, &mut self.changes) {
            return Outcome::Count(refused.count());
        }
        if let Some(change) = first_foreign(image, self.changes.list()) {
            self.changes.clear();
            return Outcome::Clash(clash_at(&self.text, self.base, change));
        }
        write_changes(&mut self.text, self.base, self.changes.list());
        self.keys.commit(image, command);
        Outcome::Done(self.changes.list().len() as u32)
    }

    /// The changes that the last update made: none before the first, and none where it was refused or clashed.
    pub fn changed(&self) -> &[Change]
        ensures { result.now ≡ self.now.changed }
    {
        self.changes.list()
    }

    /// The text as it is now.
    pub fn text(&self) -> &[u8]
        ensures { result.now ≡ self.now.text }
    {
        &self.text
    }
}

impl Held for Settled {
    ghost use Rattle.insn_forms.specs.History.{text_byte};

    ghost held_byte = { λ s at. text_byte s.base s.text at };

    fn held(&self, at: u64) -> Option<u8> {
        if at < self.base {
            return None;
        }
        self.text.get((at - self.base) as usize).copied()
    }
}

/// The first of some changes that is of a foreign site.
fn first_foreign(image: &Image, changes: &[Change]) -> Option<Change>
    ensures { result ≡ first_foreign image.now changes.now }
{
    changes
        .iter()
        .copied()
        .find(|change| is_foreign(image, change))
}

/// Whether a site that changes is foreign: no patched site begins at its address.
fn is_foreign(image: &Image, change: &Change) -> bool
    ensures { result ≡ is_foreign image.now change.now }
{
    image.site_at(change.at).is_none()
}
