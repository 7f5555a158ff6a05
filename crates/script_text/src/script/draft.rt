//! A script while its lines are read.
ghost use Rattle.std.specs.Prelude.{◌≡◌, ◌<◌, ◌≤◌, ◌+◌, if◌then◌else◌, length, nat_lt};
ghost use Rattle.script_text.specs.Lines.{begins_comment};

use super::{Script, ScriptStep};
use crate::line::ScriptLine;
use crate::meaning::{MOST_TURNS, Meaning};
use crate::{ScriptError, ScriptWhy};
use module_image::Image;
use poke_base::next_word;
use std::alloc::Global;
use std::marker::Model;

/// How many `cpu` lines a script has at most.
const MOST_CPUS: usize = 16;

/// How many updates a script has at most.
const MOST_UPDATES: u32 = 64;

/// How many `drop` lines a script has at most.
const MOST_DROPS: u32 = 64;

/// The script that the lines so far make, with what its steps have of each limit.
#[derive(Drop)]
pub struct Draft {
    entries: Vec<u64>,
    steps: Vec<ScriptStep>,
    updates: u32,
    drops: u32,
    turns: u32,
}

impl Model for Draft {
    ghost use Rattle.script_text.specs.Script.{ScriptValue};

    ghost Value = { ScriptValue };

    ghost use Rattle.script_text.specs.Draft.{draft_of, IsCounted};

    ghost view = { draft_of };

    ghost invariant = { IsCounted };
}

impl Draft {
    ghost use Rattle.std.specs.Prelude.{◌≡◌, IfErr, IfOk, OnOk};
    ghost use Rattle.poke_base.specs.Text.{words};
    ghost use Rattle.script_text.specs.declared.refused.ScriptError.TheVariants.{NoMemory};
    ghost use Rattle.script_text.specs.Meaning.{Does};
    ghost use Rattle.script_text.specs.Refused.{IsLineRefused, IsRefused};
    ghost use Rattle.script_text.specs.Script.{empty_script, finished, taken, taken_line, with_meaning};
    ghost use Rattle.script_text.specs.Shape.{line_in, meaning_in};
    ghost use Rattle.script_text.specs.Draft.{HasRoom, IsWithin, limit_fault, place_fault, with_line_read};

    /// A script without lines.
    pub fn new(alloc: Global) -> Draft
        ensures { result ≡ empty_script }
    {
        Draft {
            entries: Vec::new(alloc),
            steps: Vec::new(alloc),
            updates: 0,
            drops: 0,
            turns: 0,
        }
    }

    /// Takes the line with a number.
    ///
    /// # Errors
    /// `Refused` with this number and why; `NoMemory`.
    pub fn take(&mut self, image: &Image, number: u32, line: &[u8]) -> Result<(), ScriptError>
        ensures taken { OnOk result (taken image.now self.old (words line.now) ≡ Ok self.new) }
        ensures refused { IfErr result (IsLineRefused number (taken image.now self.old (words line.now))) }
    {
        match self.read_line(image, line) {
            Ok(Some(meaning)) => self.add(meaning),
            Ok(None) => Ok(()),
            Err(why) => Err(ScriptError::Refused { line: number, why }),
        }
    }

    /// The script, where it has a `cpu` line.
    ///
    /// # Errors
    /// `Refused` with the number of the line after the last where it has none.
    pub fn finish(self, number: u32) -> Result<Script, ScriptError>
        ensures read { IfOk result (λ script. finished number self ≡ Ok script) }
        ensures refused { IfErr result (IsRefused (finished number self)) }
    {
        if self.entries.is_empty() {
            return Err(ScriptError::Refused {
                line: number,
                why: ScriptWhy::NoCpu,
            });
        }
        let Draft { entries, steps, .. } = self;
        Ok(Script { entries, steps })
    }

    /// What a line means where the script takes it; `None` where it is passed over.
    ///
    /// # Errors
    /// The first condition that holds, in the order that `ScriptWhy` tells.
    fn read_line(&self, image: &Image, line: &[u8]) -> Result<Option<Meaning>, ScriptWhy>
        ensures read { IfOk result (λ meaning. taken image.now self.now (words line.now) ≡ Ok (with_line_read self.now meaning)) }
        ensures room { IfOk result (HasRoom self.now) }
        ensures refused { IfErr result (λ why. taken image.now self.now (words line.now) ≡ Err why) }
    {
        let Some((name, rest)) = next_word(line) else {
            return Ok(None);
        };
        if begins_comment(name) {
            return Ok(None);
        }
        match ScriptLine::read(name, rest) {
            Some(line) => Ok(Some(self.allowed(image, &line)?)),
            None => Err(ScriptWhy::Word),
        }
    }

    /// What a line means where it may come here and the limits leave room for it.
    ///
    /// # Errors
    /// The first condition that holds but for `Word`, in the order that `ScriptWhy` tells.
    fn allowed(&self, image: &Image, line: &ScriptLine<'_>) -> Result<Meaning, ScriptWhy>
        ensures taken { IfOk result (λ means. taken_line image.now self.now (Some (line_in line.now)) ≡ Ok (with_meaning self.now (meaning_in means))) }
        ensures room { IfOk result (λ means. IsWithin (with_meaning self.now (meaning_in means))) }
        ensures refused { IfErr result (λ why. taken_line image.now self.now (Some (line_in line.now)) ≡ Err why) }
    {
        self.check_place(line.is_cpu())?;
        let meaning = line.meaning(image)?;
        self.check_limits(meaning)?;
        Ok(meaning)
    }

    /// Whether a `cpu` line, or another one, may come here.
    ///
    /// # Errors
    /// The first that holds of `LateCpu`, `NoCpu`, `Cpus`.
    fn check_place(&self, is_cpu: bool) -> Result<(), ScriptWhy>
        ensures within { IsWithin self.now }
        ensures may { OnOk result (place_fault self.now is_cpu ≡ None) }
        ensures refused { IfErr result (λ why. place_fault self.now is_cpu ≡ Some why) }
    {
        if is_cpu && !self.steps.is_empty() {
            return Err(ScriptWhy::LateCpu);
        }
        if !is_cpu && self.entries.is_empty() {
            return Err(ScriptWhy::NoCpu);
        }
        if is_cpu && self.entries.len() >= MOST_CPUS {
            return Err(ScriptWhy::Cpus);
        }
        Ok(())
    }

    /// Whether the limits leave room for what a line means.
    ///
    /// # Errors
    /// The first that holds of `Updates`, `Drops`, `Turns`.
    fn check_limits(&self, meaning: Meaning) -> Result<(), ScriptWhy>
        requires { IsWithin self.now }
        ensures fits { OnOk result (limit_fault (with_meaning self.now (meaning_in meaning)) ≡ None) }
        ensures refused { IfErr result (λ why. limit_fault (with_meaning self.now (meaning_in meaning)) ≡ Some why) }
    {
        let Meaning::Does(step) = meaning else {
            return Ok(());
        };
        match step {
            ScriptStep::Update(_) => check_limit(self.updates, 1, MOST_UPDATES, ScriptWhy::Updates),
            ScriptStep::Run(turns) => check_limit(self.turns, turns, MOST_TURNS, ScriptWhy::Turns),
            ScriptStep::Drop(_) => check_limit(self.drops, 1, MOST_DROPS, ScriptWhy::Drops),
        }
    }

    /// Adds what a line means.
    ///
    /// # Errors
    /// Out of memory.
    fn add(&mut self, meaning: Meaning) -> Result<(), ScriptError>
        requires { IsWithin (with_meaning self.old (meaning_in meaning)) }
        ensures added { OnOk result (self.new ≡ with_meaning self.old (meaning_in meaning)) }
        ensures failed { IfErr result (λ why. why ≡ NoMemory) }
    {
        match meaning {
            Meaning::Starts(at) => Ok(self.entries.push(at)?),
            Meaning::Does(step) => self.add_step(step),
        }
    }

    /// Adds a step, and counts it.
    ///
    /// # Errors
    /// Out of memory.
    fn add_step(&mut self, step: ScriptStep) -> Result<(), ScriptError>
        requires { IsWithin (with_meaning self.old (Does step)) }
        ensures added { OnOk result (self.new ≡ with_meaning self.old (Does step)) }
        ensures failed { IfErr result (λ why. why ≡ NoMemory) }
    {
        self.steps.push(step)?;
        match step {
            ScriptStep::Update(_) => self.updates += 1,
            ScriptStep::Run(turns) => self.turns += turns,
            ScriptStep::Drop(_) => self.drops += 1,
        }
        Ok(())
    }
}

/// Whether the first word of a line makes it a comment.
fn begins_comment(word: &[u8]) -> bool
    requires { 0 < length word.now }
    ensures { result ≡ begins_comment word.now }
{
    word[0] == b'#'
}

/// Whether a count may rise by so many.
///
/// # Errors
/// The given one, where it would pass its limit.
fn check_limit(count: u32, more: u32, most: u32, why: ScriptWhy) -> Result<(), ScriptWhy>
    requires { count ≤ most }
    ensures { result ≡ (if nat_lt most (count + more) then Err why else Ok tt) }
{
    if more > most - count {
        return Err(why);
    }
    Ok(())
}
