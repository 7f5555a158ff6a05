//! A text that keeps all writes.
ghost use Rattle.std.specs.Prelude.{◌≡◌, ◌≤◌, ◌<◌, ◌+◌, ◌^◌, ◌-◌, [], ◌∷◌, map, length, IfOk, slice_index};
ghost use Rattle.stale_fetch.specs.Gathered.{byte_after, gathered, bytes_at};
ghost use Rattle.stale_fetch.specs.LogInside.{write_of};
ghost use Rattle.stale_fetch.specs.ByteSet.{IsByteSet};
ghost use Rattle.stale_fetch.specs.Past.{new_past, candidates};
ghost use Rattle.stale_fetch.specs.Text.{Covers};
ghost use Rattle.stale_fetch.specs.Log.{log_shape, IsLogOf};

use crate::Text;
use crate::values::{Values, add_value, count_values, one_value};
use insn_forms::Held;
use poke_base::NoMemory;
use std::alloc::Global;
use std::marker::Model;

/// A byte that was written at an address.
#[derive(Clone, Copy)]
struct ByteWrite {
    at: u64,
    byte: u8,
}

/// A text that keeps all writes, of which it takes a number that was fixed when it was made.
///
/// It takes all its memory when it is made. What a byte holds now is known at once; the candidates of
/// a processor are gathered from all writes.
#[derive(Drop)]
pub struct LogText {
    base: u64,
    /// The bytes before all writes.
    start: Vec<u8>,
    /// The bytes now.
    held: Vec<u8>,
    /// All writes, in order.
    writes: Vec<ByteWrite>,
    /// How many writes had been made when each processor last serialised.
    marks: Vec<u32>,
    /// How many writes there may be.
    room: u32,
}

impl Model for LogText {
    ghost use Rattle.stale_fetch.specs.Log.{LogState};

    ghost Value = { LogState };

    ghost use Rattle.stale_fetch.specs.LogInside.{state_of, IsSound};

    ghost view = { state_of };

    ghost invariant = { IsSound };
}

impl LogText {
    /// A text of these bytes, which begins at the address `base`, for the processors 0 to `cpus - 1`,
    /// with room for `room` writes.
    ///
    /// # Errors
    /// Out of memory.
    pub fn new(
        alloc: Global,
        base: u64,
        text: &[u8],
        cpus: u8,
        room: u32,
    ) -> Result<LogText, NoMemory>
        requires some_bytes { 1 ≤ length text.now }
        requires most_bytes { length text.now ≤ 65536 }
        requires ends { base + length text.now < 2 ^ 64 }
        requires some_cpus { 1 ≤ cpus }
        requires most_cpus { cpus ≤ 16 }
        ensures new { IfOk result (λ log. log ≡ record { past = new_past base text.now cpus; room = room }) }
        ensures stands { IfOk result (λ log. IsLogOf log (new_past base text.now cpus)) }
    {
        let start = Vec::from_slice(alloc, text)?;
        let held = Vec::from_slice(alloc, text)?;
        let writes = Vec::with_capacity(alloc, room as usize)?;
        let marks = vec![in alloc; 0; usize::from(cpus)]?;
        Ok(LogText {
            base,
            start,
            held,
            writes,
            marks,
            room,
        })
    }

    /// The candidates of a processor at an address inside of the text.
    fn values(&self, cpu: u8, at: u64) -> Values
        requires known { cpu < length self.now.past.marks }
        requires inside { Covers (log_shape self.now) at }
        ensures values { result.items ≡ candidates self.now.past cpu at }
        ensures each_once { IsByteSet result.items }
        ensures stands { IsLogOf self.now self.now.past }
    {
        let mark = self.marks[usize::from(cpu)] as usize;
        let start = self.start[(at - self.base) as usize];
        let first = byte_after(start, &self.writes[..mark], at);
        gathered(first, &self.writes[mark..], at)
    }
}

/// The byte at an address, which was `start`, after some writes.
fn byte_after(start: u8, writes: &[ByteWrite], at: u64) -> u8
    ensures { result ≡ byte_after start (map write_of writes.now) at }
{
    let mut byte = start;
    for write in writes {
        if write.at == at {
            byte = write.byte;
        }
    }
    byte
}

/// The values of the byte at an address, which was `first`, over some writes.
fn gathered(first: u8, writes: &[ByteWrite], at: u64) -> Values
    ensures values { result.items ≡ gathered (first ∷ []) (bytes_at (map write_of writes.now) at) }
    ensures each_once { IsByteSet result.items }
{
    let mut values = one_value(first);
    for write in writes {
        if write.at == at {
            add_value(&mut values, write.byte);
        }
    }
    values
}

impl Held for LogText {
    ghost use Rattle.stale_fetch.specs.Past.{held_in};

    ghost held_byte = { λ log at. held_in log.past at };

    fn held(&self, at: u64) -> Option<u8> {
        if at < self.base {
            return None;
        }
        self.held.get((at - self.base) as usize).copied()
    }
}

impl Text for LogText {
    ghost use Rattle.stale_fetch.specs.Log.{log_shape, IsLogOf, log_has_room};
    ghost use Rattle.stale_fetch.specs.LogLaws.{log_agrees, log_room};

    ghost shape = { log_shape };

    ghost stands = { IsLogOf };

    ghost can_write = { log_has_room };

    ghost agrees = { log_agrees };

    ghost room_is = { log_room };

    fn fits(&self, _at: u64, _byte: u8) -> bool {
        self.writes.len() < self.room as usize
    }

    fn write(&mut self, at: u64, byte: u8) {
        self.held[(at - self.base) as usize] = byte;
        self.writes.push_reserved(ByteWrite { at, byte });
    }

    fn serialise(&mut self, cpu: u8) {
        self.marks[usize::from(cpu)] = self.writes.len() as u32;
    }

    fn count(&self, cpu: u8, at: u64) -> u16 {
        count_values(&self.values(cpu, at))
    }

    fn candidate(&self, cpu: u8, at: u64, n: u16) -> u8 {
        self.values(cpu, at)[usize::from(n)]
    }

    fn allows(&self, cpu: u8, at: u64, byte: u8) -> bool {
        self.values(cpu, at).contains(&byte)
    }
}
