//! Reading the line of an event.
ghost use Rattle.std.specs.Prelude.{◌≡◌, ◌≢◌, ◌<◌, ◌++◌, ◌∷◌, [], ℕ, List, MatchOption, length, nat_lt, if◌then◌else◌};
ghost use Rattle.std.specs.List.{list_any};
ghost use Rattle.std.specs.Char.{is_ascii_uppercase};
ghost use Rattle.run_journal.specs.declared.event.Event.{Event};
ghost use Rattle.run_journal.specs.Parts.{BeginsWith, IsCode, IsCpu, IsSpacedCpu, IsSpacedFetch, IsSpelt, IsSplit};

use crate::Event;
use crate::letters::{AT, BEGIN, HANDLE, PLAIN, REQUEST, RETURN, TAKE, TICK, WRITE};
use poke_base::{CodeBytes, code_bytes, read_dec};

/// How many bytes the longest line of an event has: a letter, a space, a number of two digits, a
/// space, nine bytes and a line feed.
const LONGEST: usize = 24;

/// What follows a prefix. `None` where the text doesn't begin with it.
pub(crate) fn after<'a>(prefix: &[u8], text: &'a [u8]) -> Option<&'a [u8]>
    ensures { MatchOption result ((back : List ℕ) → text.now ≢ prefix.now ++ back) (λ back. text.now ≡ prefix.now ++ back.now) }
{
    text.strip_prefix(prefix)
}

/// What stands before the first byte of this value, and after it. `None` where there is none.
fn split_once(text: &[u8], mark: u8) -> Option<(&[u8], &[u8])>
    ensures { MatchOption result ((prefix back : List ℕ) → text.now ≢ prefix ++ mark ∷ back) (λ parts. IsSplit mark text.now parts.0.now parts.1.now) }
{
    let len = text.iter().position(|byte| *byte == mark)?;
    Some((&text[..len], &text[len + 1..]))
}

/// How many digits the number of a processor has.
fn digits_len(cpu: u64) -> usize
    ensures { result ≡ (if nat_lt cpu 10 then 1 else 2) }
{
    if cpu < 10 { 1 } else { 2 }
}

/// The number of a processor: 0 to 15 in decimal, without a leading zero.
fn read_cpu(word: &[u8]) -> Option<u8>
    ensures { MatchOption result ((cpu : ℕ) → IsCpu word.now cpu → ⊥) (IsCpu word.now) }
{
    let cpu = read_dec(word)?;
    if cpu > 15 {
        return None;
    }
    if word.len() != digits_len(cpu) {
        return None;
    }
    Some(cpu as u8)
}

/// Whether one of the bytes is a letter in upper case.
fn has_uppercase(word: &[u8]) -> bool
    ensures { result ≡ list_any is_ascii_uppercase word.now }
{
    word.iter().any(|byte| byte.is_ascii_uppercase())
}

/// One to nine bytes, each as two hexadecimal digits in lower case.
fn read_bytes(word: &[u8]) -> Option<CodeBytes>
    ensures { MatchOption result ((bytes : List ℕ) → IsCode word.now bytes → ⊥) (λ code. IsCode word.now code.items) }
{
    let len = word.len() / 2;
    if len > 9 {
        return None;
    }
    if has_uppercase(word) {
        return None;
    }
    let mut buffer = [0; 9];
    let bytes = &mut buffer[..len];
    hex::decode_to_slice(word, bytes).ok()?;
    let (first, rest) = bytes.split_first()?;
    Some(code_bytes(*first, rest))
}

/// The event, where no words follow its letter.
fn alone(words: &[u8], event: Event) -> Option<Event>
    ensures { MatchOption result (words.now ≢ []) (λ read. (words.now ≡ []) × (read ≡ event)) }
{
    if words.is_empty() { Some(event) } else { None }
}

/// The number of a processor after a space.
fn spaced_cpu(words: &[u8]) -> Option<u8>
    ensures { MatchOption result ((cpu : ℕ) → IsSpacedCpu words.now cpu → ⊥) (IsSpacedCpu words.now) }
{
    read_cpu(after(b" ", words)?)
}

/// The number of a processor after a space, and the bytes that it fetches after another.
fn spaced_fetch(words: &[u8]) -> Option<(u8, CodeBytes)>
    ensures { MatchOption result ((cpu : ℕ) (bytes : List ℕ) → IsSpacedFetch words.now cpu bytes → ⊥)
        (λ found. IsSpacedFetch words.now found.0 found.1.items) }
{
    let (cpu, bytes) = split_once(after(b" ", words)?, b' ')?;
    Some((read_cpu(cpu)?, read_bytes(bytes)?))
}

/// The event whose line begins with this letter and goes on with these words.
fn event_of(first: u8, words: &[u8]) -> Option<Event>
    ensures { MatchOption result ((e : Event) → IsSpelt e first words.now → ⊥) (λ e. IsSpelt e first words.now) }
{
    match first {
        BEGIN => alone(words, Event::Begin),
        WRITE => alone(words, Event::Write),
        REQUEST => alone(words, Event::Request),
        TAKE => Some(Event::Take(spaced_cpu(words)?)),
        RETURN => alone(words, Event::Return),
        PLAIN => Some(Event::Plain(spaced_cpu(words)?)),
        AT => {
            let (cpu, bytes) = spaced_fetch(words)?;
            Some(Event::At(cpu, bytes))
        }
        HANDLE => Some(Event::Handle(spaced_cpu(words)?)),
        TICK => Some(Event::Tick(spaced_cpu(words)?)),
        _ => None,
    }
}

/// The first line, without its line feed, and what follows it. `None` where no line feed is among as
/// many bytes as the longest line has.
fn split_line(text: &[u8]) -> Option<(&[u8], &[u8])>
    ensures { MatchOption result ((line back : List ℕ) → length line < 24 → text.now ≢ line ++ 10 ∷ back)
        (λ parts. IsSplit 10 text.now parts.0.now parts.1.now) }
{
    let window = &text[..text.len().min(LONGEST)];
    let (line, _) = split_once(window, b'\n')?;
    let (_, rest) = text.split_at(line.len() + 1);
    Some((line, rest))
}

/// The event with whose line the text begins, and what follows the line. `None` where it begins with no
/// event's line. At most as many bytes are looked at as the longest line has.
pub(crate) fn read_event(text: &[u8]) -> Option<(Event, &[u8])>
    ensures { MatchOption result ((e : Event) (back : List ℕ) → BeginsWith e text.now back → ⊥) (λ found. BeginsWith found.0 text.now found.1.now) }
{
    let (line, rest) = split_line(text)?;
    let (first, words) = line.split_first()?;
    let event = event_of(*first, words)?;
    Some((event, rest))
}
