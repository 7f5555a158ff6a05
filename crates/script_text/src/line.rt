//! The lines of a script by their words.
ghost use Rattle.std.specs.Prelude.{◌≡◌, ℕ, List, [], ◌∷◌, None, MatchOption, option_map};
ghost use Rattle.poke_base.specs.Text.{words};
ghost use Rattle.script_text.specs.Grammar.{Line, one_word, two_words};

use poke_base::next_word;

/// A line of a script, with the words after its first.
#[derive(Clone, Copy)]
pub enum ScriptLine<'a> {
    /// `cpu F`: one more processor, which starts at a function.
    Cpu(&'a [u8]),
    /// `inc K`: adds one to a static key's count.
    Inc(&'a [u8]),
    /// `dec K`: takes one from a static key's count.
    Dec(&'a [u8]),
    /// `enable K`: enables a static key.
    Enable(&'a [u8]),
    /// `disable K`: disables a static key.
    Disable(&'a [u8]),
    /// `call K F`: gives a static call's key a function, or none.
    Call(&'a [u8], &'a [u8]),
    /// `trace F` and `untrace F`: turns the tracing of a function, or of all trace sites, on or off.
    Trace(bool, &'a [u8]),
    /// `run N`: turns of the processors.
    Run(&'a [u8]),
    /// `drop T`: drops the tracer at a place.
    Drop(&'a [u8]),
}

impl<'a> ScriptLine<'a> {
    ghost use Rattle.std.specs.Prelude.{◌≡◌, ◌∷◌, option_map};
    ghost use Rattle.poke_base.specs.Text.{words};
    ghost use Rattle.script_text.specs.Grammar.{is_cpu, line_of};
    ghost use Rattle.script_text.specs.Shape.{line_in};

    /// The line with a first word and the words of what stands after it. `None` exactly where there is no such command,
    /// or too few or too many words.
    pub fn read(name: &[u8], rest: &'a [u8]) -> Option<ScriptLine<'a>>
        ensures { option_map line_in result ≡ line_of (name.now ∷ words rest.now) }
    {
        match str::from_utf8(name).ok()? {
            "cpu" => Some(ScriptLine::Cpu(one_word(rest)?)),
            "inc" => Some(ScriptLine::Inc(one_word(rest)?)),
            "dec" => Some(ScriptLine::Dec(one_word(rest)?)),
            "enable" => Some(ScriptLine::Enable(one_word(rest)?)),
            "disable" => Some(ScriptLine::Disable(one_word(rest)?)),
            "call" => {
                let (key, function) = two_words(rest)?;
                Some(ScriptLine::Call(key, function))
            }
            "trace" => Some(ScriptLine::Trace(true, one_word(rest)?)),
            "untrace" => Some(ScriptLine::Trace(false, one_word(rest)?)),
            "run" => Some(ScriptLine::Run(one_word(rest)?)),
            "drop" => Some(ScriptLine::Drop(one_word(rest)?)),
            _ => None,
        }
    }

    /// Whether it is a `cpu` line.
    pub fn is_cpu(&self) -> bool
        ensures { result ≡ is_cpu (line_in self.now) }
    {
        matches!(self, ScriptLine::Cpu(_))
    }
}

/// The only word of a text. `None` exactly where it has none or more than one.
fn one_word(text: &[u8]) -> Option<&[u8]>
    ensures { MatchOption result ((line : List ℕ → Line) → one_word line (words text.now) ≡ None) (λ word. words text.now ≡ word.now ∷ []) }
{
    let (word, rest) = next_word(text)?;
    match next_word(rest) {
        None => Some(word),
        Some(_) => None,
    }
}

/// The two words of a text. `None` exactly where it has fewer or more.
fn two_words(text: &[u8]) -> Option<(&[u8], &[u8])>
    ensures { MatchOption result ((line : List ℕ → List ℕ → Line) → two_words line (words text.now) ≡ None) (λ both. words text.now ≡ both.0.now ∷ both.1.now ∷ []) }
{
    let (first, rest) = next_word(text)?;
    let (second, rest) = next_word(rest)?;
    match next_word(rest) {
        None => Some((first, second)),
        Some(_) => None,
    }
}
