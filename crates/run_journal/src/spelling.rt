//! How events are spelt.
ghost use Rattle.std.specs.Prelude.{◌≡◌, ◌≤◌, ◌+◌, ◌++◌, [], length};
ghost use Rattle.std.specs.Option.{ForSome};
ghost use Rattle.arrayvec.specs.ArrayVec.{array_vec_len};
ghost use Rattle.run_journal.specs.Spelling.{letter, cpu_of, bytes_of, cpu_word, bytes_word, event_line};

use crate::Event;
use crate::letters::{AT, BEGIN, HANDLE, PLAIN, REQUEST, RETURN, TAKE, TICK, WRITE};
use poke_base::{Line, put_bytes, put_dec, put_text};

/// The first line of a journal.
pub const HEADER: &[u8] = b"journal 1\n";

/// Puts the line of an event into an empty line: its letter, the number of its processor in decimal,
/// at most 15, and the bytes that it fetches, at least one, in hexadecimal; and a line feed.
///
/// The letters are b Begin, w Write, s Request, t Take, r Return, p Plain, a At, h Handle and i Tick.
#[tactic(auto, using(crate::proofs::Words::line_length))]
pub fn line_of(event: &Event, line: &mut Line)
    requires empty { line.old.items ≡ [] }
    requires cpu { ForSome (cpu_of event.now) (λ cpu. cpu ≤ 15) }
    requires bytes { ForSome (bytes_of event.now) (λ bytes. 1 ≤ length bytes) }
    ensures line { line.new.items ≡ event_line event.now }
    ensures short { length line.new.items ≤ 24 }
{
    line.push(letter(event));
    put_cpu(line, event.cpu());
    put_fetched(line, event);
    line.push(b'\n');
}

/// The letter of an event.
fn letter(event: &Event) -> u8
    ensures { result ≡ letter event.now }
{
    match event {
        Event::Begin => BEGIN,
        Event::Write => WRITE,
        Event::Request => REQUEST,
        Event::Take(_) => TAKE,
        Event::Return => RETURN,
        Event::Plain(_) => PLAIN,
        Event::At(_, _) => AT,
        Event::Handle(_) => HANDLE,
        Event::Tick(_) => TICK,
    }
}

/// Adds a space and the number of a processor, where there is one.
#[tactic(auto, using(crate::proofs::Words::line_length))]
fn put_cpu(line: &mut Line, cpu: Option<u8>)
    requires room { array_vec_len line.old ≤ 1 }
    requires few { ForSome cpu (λ cpu. cpu ≤ 15) }
    ensures added { line.new.items ≡ line.old.items ++ cpu_word cpu }
    ensures short { length line.new.items ≤ length line.old.items + 3 }
{
    if let Some(cpu) = cpu {
        put_text(line, b" ");
        put_dec(line, u64::from(cpu));
    }
}

/// Adds a space and the bytes that an event fetches, where it does.
#[tactic(auto, using(crate::proofs::Words::line_length))]
fn put_fetched(line: &mut Line, event: &Event)
    requires room { array_vec_len line.old ≤ 4 }
    ensures added { line.new.items ≡ line.old.items ++ bytes_word (bytes_of event.now) }
    ensures short { length line.new.items ≤ length line.old.items + 19 }
{
    if let Event::At(_, bytes) = event {
        put_text(line, b" ");
        put_bytes(line, bytes);
    }
}
