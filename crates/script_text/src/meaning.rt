//! What the lines of a script mean in a module.
ghost use Rattle.std.specs.Prelude.{◌≡◌, ◌≤◌, IfSome};
ghost use Rattle.module_parts.specs.declared.key.KeyClass.TheVariants.{Jump as JumpKey, Call as CallKey};
ghost use Rattle.script_text.specs.declared.script.ScriptStep.TheVariants.{Update};
ghost use Rattle.script_text.specs.Meaning.{Does, function_or_null, key_named, most_turns, place_of, target, traces, turns_of};
ghost use Rattle.script_text.specs.Shape.{meaning_in};

use crate::line::ScriptLine;
use crate::{ScriptStep, ScriptWhy};
use module_image::{Command, Image, KeyClass};
use poke_base::read_dec;

/// The turns of one `run` line, and of all together.
pub const MOST_TURNS: u32 = 1_000_000;

/// What a line means: one more processor, which starts at an address, or one more step.
#[derive(Clone, Copy)]
pub enum Meaning {
    Starts(u64),
    Does(ScriptStep),
}

impl<'a> ScriptLine<'a> {
    ghost use Rattle.std.specs.Prelude.{◌≡◌, IfErr, IfOk, option_map};
    ghost use Rattle.script_text.specs.Meaning.{meaning};
    ghost use Rattle.script_text.specs.Shape.{fault_of, line_in, meaning_in};

    /// What the line means in a module.
    ///
    /// # Errors
    /// `Number` where a number is malformed or out of its range, `Name` where a name is unknown.
    pub fn meaning(&self, image: &Image) -> Result<Meaning, ScriptWhy>
        ensures means { IfOk result (λ means. meaning image.now (line_in self.now) ≡ Some (meaning_in means)) }
        ensures unknown { IfErr result (λ _. meaning image.now (line_in self.now) ≡ None) }
        ensures why { IfErr result (λ why. why ≡ fault_of (line_in self.now)) }
    {
        self.meant(image).ok_or(self.fault())
    }

    /// Why it is refused where it means nothing.
    fn fault(&self) -> ScriptWhy
        ensures { result ≡ fault_of (line_in self.now) }
    {
        match self {
            ScriptLine::Run(_) | ScriptLine::Drop(_) => ScriptWhy::Number,
            _ => ScriptWhy::Name,
        }
    }

    /// What the line means in a module. `None` exactly where it means nothing.
    fn meant(&self, image: &Image) -> Option<Meaning>
        ensures { option_map meaning_in result ≡ meaning image.now (line_in self.now) }
    {
        match self {
            ScriptLine::Cpu(name) => Some(Meaning::Starts(image.function_named(name)?)),
            ScriptLine::Inc(key) => Some(update(Command::Inc(jump_key(image, key)?))),
            ScriptLine::Dec(key) => Some(update(Command::Dec(jump_key(image, key)?))),
            ScriptLine::Enable(key) => Some(update(Command::Enable(jump_key(image, key)?))),
            ScriptLine::Disable(key) => Some(update(Command::Disable(jump_key(image, key)?))),
            ScriptLine::Call(key, name) => Some(update(target(image, key, name)?)),
            ScriptLine::Trace(on, name) => Some(update(traces(image, *on, name)?)),
            ScriptLine::Run(turns) => Some(Meaning::Does(ScriptStep::Run(turns_of(turns)?))),
            ScriptLine::Drop(place) => Some(Meaning::Does(ScriptStep::Drop(place_of(place)?))),
        }
    }
}

/// The update of a command.
fn update(command: Command) -> Meaning
    ensures { meaning_in result ≡ Does (Update command) }
{
    Meaning::Does(ScriptStep::Update(command))
}

/// The number of the static key of a name. `None` exactly where there is none.
fn jump_key(image: &Image, name: &[u8]) -> Option<u32>
    ensures { result ≡ key_named image.now JumpKey name.now }
{
    image.key_named(KeyClass::Jump, name)
}

/// What gives a static call's key a function. `None` exactly where one of them is unknown.
fn target(image: &Image, key: &[u8], name: &[u8]) -> Option<Command>
    ensures { result ≡ target (key_named image.now CallKey key.now) (function_or_null image.now name.now) }
{
    let key = image.key_named(KeyClass::Call, key)?;
    let function = function_or_null(image, name)?;
    Some(Command::Target(key, function))
}

/// The address of a function; `-` is the null function. `None` exactly where there is none.
fn function_or_null(image: &Image, name: &[u8]) -> Option<u64>
    ensures { result ≡ function_or_null image.now name.now }
{
    if name == b"-".as_slice() {
        return Some(0);
    }
    image.function_named(name)
}

/// What turns the tracing of a function on or off; `*` stands for all trace sites. `None` exactly where there is no
/// such function, or it has no trace site.
fn traces(image: &Image, on: bool, name: &[u8]) -> Option<Command>
    ensures { result ≡ traces image.now on name.now }
{
    if name == b"*".as_slice() {
        return Some(Command::TraceAll(on));
    }
    let function = image.function_named(name)?;
    let site = image.trace_site_of(function)?;
    Some(Command::Trace(site, on))
}

/// The turns of a `run` line, 1 to 1,000,000. `None` exactly for all other words.
fn turns_of(word: &[u8]) -> Option<u32>
    ensures turns { result ≡ turns_of word.now }
    ensures few { IfSome result (λ turns. turns ≤ most_turns) }
{
    let turns = read_dec(word)?;
    if (1..=u64::from(MOST_TURNS)).contains(&turns) {
        Some(turns as u32)
    } else {
        None
    }
}

/// The place of a tracer, 0 to 255. `None` exactly for all other words.
fn place_of(word: &[u8]) -> Option<u8>
    ensures { result ≡ place_of word.now }
{
    u8::try_from(read_dec(word)?).ok()
}
