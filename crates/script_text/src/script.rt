//! Scripts.

mod draft;

use crate::ScriptError;
use crate::laws::scripts_are_of_their_modules;
use crate::lines::next_line;
use draft::Draft;
use module_image::{Command, Image};
use std::alloc::Global;
use std::marker::Model;

/// One step of a script.
#[derive(Clone, Copy, Debug, PartialEq, Eq)]
pub enum ScriptStep {
    /// An update of the module's keys or trace sites.
    Update(Command),
    /// Turns of the processors, 1 to 1,000,000.
    Run(u32),
    /// Drops the tracer at a place, 0 to 255.
    Drop(u8),
}

/// What a script says: where its processors start, and its steps.
#[derive(Drop)]
pub struct Script {
    entries: Vec<u64>,
    steps: Vec<ScriptStep>,
}

impl Model for Script {
    ghost use Rattle.script_text.specs.Script.{ScriptValue};

    ghost Value = { ScriptValue };

    ghost use Rattle.script_text.specs.Inside.{script_of, IsSound};

    ghost view = { script_of };

    ghost invariant = { IsSound };
}

impl Script {
    ghost use Rattle.std.specs.Prelude.{◌≡◌, ◌<◌, ◌≤◌, ◌-◌, ◌^◌, IfErr, IfOk, length};
    ghost use Rattle.script_text.specs.Laws.{IsScriptOf};
    ghost use Rattle.script_text.specs.Meaning.{most_turns};
    ghost use Rattle.script_text.specs.Script.{all_drops, all_turns, all_updates, most_cpus, most_drops, most_updates, script};
    ghost use Rattle.script_text.specs.Refused.{IsRefused};

    /// Reads a script for a module, in one pass over the text, with at most two names looked up for a line.
    ///
    /// # Errors
    /// `Refused` with the number of the first refused line, counted from 1, and the first reason that holds of it, in
    /// the order that `ScriptWhy` tells; `NoMemory` may come at any line.
    pub fn read(alloc: Global, text: &[u8], image: &Image) -> Result<Script, ScriptError>
        requires { length text.now < 2 ^ 32 - 1 }
        ensures script { IfOk result (λ s. script image.now text.now ≡ Ok s) }
        ensures of { IfOk result (IsScriptOf image.now) }
        ensures refused { IfErr result (IsRefused (script image.now text.now)) }
    {
        image.accepted();
        scripts_are_of_their_modules();
        let mut draft = Draft::new(alloc);
        let mut rest = text;
        let mut number = 1;
        while let Some((line, after)) = next_line(rest) {
            draft.take(image, number, line)?;
            rest = after;
            number += 1;
        }
        draft.finish(number)
    }

    /// Where the processors start, 1 to 16, each at the address of a function of the module, in order.
    pub fn entries(&self) -> &[u64]
        ensures entries { result.now ≡ self.now.entries }
        ensures some { 1 ≤ length result.now }
        ensures few { length result.now ≤ most_cpus }
    {
        &self.entries
    }

    /// What is done, in order: at most 64 updates, 64 drops, and 1,000,000 turns together. Commands are of the module.
    pub fn steps(&self) -> &[ScriptStep]
        ensures steps { result.now ≡ self.now.steps }
        ensures few_updates { all_updates result.now ≤ most_updates }
        ensures few_drops { all_drops result.now ≤ most_drops }
        ensures few_turns { all_turns result.now ≤ most_turns }
    {
        &self.steps
    }
}
