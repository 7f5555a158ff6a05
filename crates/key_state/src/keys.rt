//! What the keys of a module hold.
ghost use Rattle.std.specs.Prelude.{◌≡◌, ◌<◌, ◌++◌, Some, length};
ghost use Rattle.std.specs.Option.{option_to_list, unwrap_or};
ghost use Rattle.key_state.specs.Changes.{change_between};
ghost use Rattle.module_image.specs.Module.{tracer_of};

use crate::CountRefused;
use crate::count::count_after;
use crate::effect::{Effect, held, is_traced, state_after, state_of, traced_after};
use insn_forms::{Change, Changes, Form};
use module_image::{Command, Image, wanted_form};
use poke_base::NoMemory;
use std::alloc::Global;
use std::marker::Model;

/// What the keys of a module hold, and which of its sites are traced.
#[derive(Drop)]
pub struct Keys {
    states: Vec<u64>,
    traced: Vec<bool>,
}

impl Model for Keys {
    ghost use Rattle.module_image.specs.Module.{States};

    ghost Value = { States };

    ghost view = { λ k. record { keys = k.states.items; traced = k.traced.items } };
}

impl Keys {
    ghost use Rattle.std.specs.Prelude.{◌≡◌, ◌<◌, ◌≤◌, length, slice_index, [], Some, Ok, Err, IfOk, IfErr, OnOk};
    ghost use Rattle.std.specs.Option.{option_to_list};
    ghost use Rattle.key_state.specs.After.{after, with_count};
    ghost use Rattle.key_state.specs.Changes.{AreStatesOf, change_at, changes, changes_by};
    ghost use Rattle.key_state.specs.Effects.{CanDo, HoldsCount, IsWithin, counted, states_after};
    ghost use Rattle.module_image.specs.Command.{IsCommandOf};
    ghost use Rattle.module_image.specs.Held.{first_states};
    ghost use Rattle.module_image.specs.Module.{States, wants};

    /// The keys as the file has them, and no site traced.
    ///
    /// # Errors
    /// Out of memory.
    pub fn of(alloc: Global, image: &Image) -> Result<Keys, NoMemory>
        ensures first { IfOk result (λ keys. keys ≡ first_states image.now) }
        ensures states { IfOk result (AreStatesOf image.now) }
    {
        image.accepted();
        let states = image.keys().iter().map(|key| key.start).collect(alloc)?;
        let traced = vec![in alloc; false; image.sites().len()]?;
        Ok(Keys { states, traced })
    }

    /// The form that the site with a number wants.
    pub fn wants(&self, image: &Image, site: u32) -> Form
        requires states { AreStatesOf image.now self.now }
        requires site { site < length image.now.sites }
        ensures { wants image.now self.now site ≡ Some result }
    {
        let there = image.sites()[site as usize];
        let state = state_of(&self.states, there.kind);
        let on = is_traced(&self.traced, site);
        wanted_form(&there, state, on, tracer_of(image))
    }

    /// The changes that a command asks for: the sites whose wanted forms differ before and after it, ascending, each with
    /// its old and its new form. The list has to have room for all sites. It takes time linear in the sites.
    ///
    /// # Errors
    /// The key's count doesn't allow the command; the list is empty then.
    pub fn changes(
        &self,
        image: &Image,
        command: &Command,
        out: &mut Changes,
    ) -> Result<(), CountRefused>
        requires states { AreStatesOf image.now self.now }
        requires command { IsCommandOf image.now command.now }
        requires room { length image.now.sites ≤ out.old.room }
        ensures changes { out.new.list ≡ changes_by image.now self.now command.now }
        ensures refused { IfErr result (λ why. after self.now command.now ≡ Err why) }
        ensures allowed { OnOk result ((new : States) × (after self.now command.now ≡ Ok new)) }
        ensures room { out.new.room ≡ out.old.room }
    {
        out.clear();
        let effect = self.effect(*command)?;
        self.list_changes(image, effect, out);
        Ok(())
    }

    /// Does a command that isn't refused: from now on the keys hold what they hold after it.
    pub fn commit(&mut self, image: &Image, command: &Command)
        requires states { AreStatesOf image.now self.old }
        requires command { IsCommandOf image.now command.now }
        requires allowed { (new : States) × (after self.old command.now ≡ Ok new) }
        ensures committed { after self.old command.now ≡ Ok self.new }
        ensures states { AreStatesOf image.now self.new }
    {
        image.accepted();
        if let Ok(effect) = self.effect(*command) {
            self.set(effect);
        }
    }

    /// The effect of a command.
    ///
    /// # Errors
    /// The key's count doesn't allow it.
    fn effect(&self, command: Command) -> Result<Effect, CountRefused>
        requires { CanDo self.now command }
        ensures effect { IfOk result (λ effect. after self.now command ≡ Ok (states_after self.now effect)) }
        ensures within { IfOk result (IsWithin self.now) }
        ensures refused { IfErr result (λ why. after self.now command ≡ Err why) }
    {
        match command {
            Command::Inc(key) => self.count_effect(command, key),
            Command::Dec(key) => self.count_effect(command, key),
            Command::Enable(key) => self.count_effect(command, key),
            Command::Disable(key) => self.count_effect(command, key),
            Command::Target(key, func) => Ok(Effect::Key(key, func)),
            Command::Trace(site, on) => Ok(Effect::Site(site, on)),
            Command::TraceAll(on) => Ok(Effect::Sites(on)),
        }
    }

    /// The effect of a command on the count of the key with a number.
    ///
    /// # Errors
    /// The count doesn't allow it.
    fn count_effect(&self, command: Command, key: u32) -> Result<Effect, CountRefused>
        requires { HoldsCount self.now key }
        ensures effect { IfOk result (λ effect. with_count self.now key (counted command (slice_index self.now.keys key)) ≡ Ok (states_after self.now effect)) }
        ensures within { IfOk result (IsWithin self.now) }
        ensures refused { IfErr result (λ why. with_count self.now key (counted command (slice_index self.now.keys key)) ≡ Err why) }
    {
        let count = count_after(command, held(&self.states, key) as u32)?;
        Ok(Effect::Key(key, u64::from(count)))
    }

    /// Lists the changes of an effect.
    fn list_changes(&self, image: &Image, effect: Effect, out: &mut Changes)
        requires traced { length self.now.traced ≡ length image.now.sites }
        requires within { IsWithin self.now effect }
        requires empty { out.old.list ≡ [] }
        requires room { length image.now.sites ≤ out.old.room }
        ensures { out.new ≡ record out.old { list = changes image.now self.now (states_after self.now effect) } }
    {
        let sites = image.sites().len() as u32;
        for site in 0..sites {
            push_some(out, self.change_of(image, effect, site));
        }
    }

    /// The change that an effect asks for at the site with a number, if it asks for one.
    fn change_of(&self, image: &Image, effect: Effect, site: u32) -> Option<Change>
        requires traced { length self.now.traced ≡ length image.now.sites }
        requires within { IsWithin self.now effect }
        requires site { site < length image.now.sites }
        ensures { option_to_list result ≡ change_at image.now self.now (states_after self.now effect) site }
    {
        let there = image.sites()[site as usize];
        let tracer = tracer_of(image);
        let old_state = state_of(&self.states, there.kind);
        let old = wanted_form(&there, old_state, is_traced(&self.traced, site), tracer);
        let new_state = state_after(&self.states, effect, there.kind);
        let on = traced_after(&self.traced, effect, site);
        let new = wanted_form(&there, new_state, on, tracer);
        change_between(there.at, old, new)
    }

    /// Does an effect.
    fn set(&mut self, effect: Effect)
        requires { IsWithin self.old effect }
        ensures { self.new ≡ states_after self.old effect }
    {
        match effect {
            Effect::Key(key, state) => self.states[key as usize] = state,
            Effect::Site(site, on) => self.traced[site as usize] = on,
            Effect::Sites(on) => self.traced.fill(on),
        }
    }
}

/// The address of the function that is called at traced sites; 0 where there is none, and then no site is a trace site.
fn tracer_of(image: &Image) -> u64
    ensures { result ≡ unwrap_or (tracer_of image.now) 0 }
{
    image.tracer().unwrap_or(0)
}

/// Adds a change, if there is one, to a list that has room for it.
fn push_some(out: &mut Changes, change: Option<Change>)
    requires { length out.old.list < out.old.room }
    ensures { out.new ≡ record out.old { list = out.old.list ++ option_to_list change } }
{
    if let Some(change) = change {
        out.push(change);
    }
}

/// The change of a site at an address between two forms, if they differ.
fn change_between(at: u64, old: Form, new: Form) -> Option<Change>
    ensures { option_to_list result ≡ change_between at (Some old) (Some new) }
{
    if old == new {
        None
    } else {
        Some(Change { at, old, new })
    }
}
