//! A list of changes with room for n.
ghost use Rattle.std.specs.Prelude.{◌≡◌, ◌<◌, [], ◌∷◌, ◌++◌, IfOk, length};

use crate::Change;
use poke_base::NoMemory;
use std::alloc::Global;
use std::marker::Model;

/// Changes of sites, in order, in memory that was taken when the list was made.
#[derive(Drop)]
pub struct Changes {
    items: Vec<Change>,
}

impl Model for Changes {
    ghost use Rattle.insn_forms.specs.Changes.{ChangeList};
    ghost use Rattle.std.specs.Vec.{vec_capacity};

    ghost Value = { ChangeList };

    ghost view = { λ c. record { list = c.items.items; room = vec_capacity c.items } };
}

impl Changes {
    /// An empty list with room for `n` changes.
    ///
    /// # Errors
    /// Out of memory.
    pub fn with_room(alloc: Global, n: u32) -> Result<Changes, NoMemory>
        ensures empty { IfOk result (λ changes. changes.list ≡ []) }
        ensures room { IfOk result (λ changes. changes.room ≡ n) }
    {
        let items = Vec::with_capacity(alloc, n as usize)?;
        Ok(Changes { items })
    }

    /// Empties the list; its room stays.
    pub fn clear(&mut self)
        ensures { self.new ≡ record self.old { list = [] } }
    {
        self.items.clear();
    }

    /// Adds a change at the end. The list has to have room for it.
    pub fn push(&mut self, change: Change)
        requires { length self.old.list < self.old.room }
        ensures { self.new ≡ record self.old { list = self.old.list ++ change ∷ [] } }
    {
        self.items.push_reserved(change);
    }

    /// The changes, in order.
    pub fn list(&self) -> &[Change]
        ensures { result.now ≡ self.now.list }
    {
        self.items.as_slice()
    }
}
