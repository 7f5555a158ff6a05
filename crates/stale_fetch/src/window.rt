//! A text that keeps two values of each byte for each processor.
ghost use Rattle.std.specs.Prelude.{◌≡◌, ◌≤◌, ◌<◌, ◌+◌, ◌^◌, ◌-◌, ℕ, true, false, None, All, map, length, replicate, IfOk, slice_index};
ghost use Rattle.std.specs.List.{list_all};
ghost use Rattle.stale_fetch.specs.Past.{new_past};
ghost use Rattle.stale_fetch.specs.Text.{Covers};
ghost use Rattle.stale_fetch.specs.Choice.{takes, chosen};
ghost use Rattle.stale_fetch.specs.Windows.{Row, window_shape, window_at, widened_at, choice_at, IsWindowsOf};

use crate::Text;
use crate::choice::Choice;
use crate::row::Windows;
use insn_forms::Held;
use poke_base::NoMemory;
use std::alloc::Global;
use std::marker::Model;

/// A text that keeps the byte that it holds, and at most one value from before for each processor.
///
/// It takes all its memory when it is made, and takes any number of writes, but none that would give a
/// processor a third candidate. `fits` and `write` take as long as there are processors, and no call
/// takes longer for a longer text, but for one in 2^64 - 1 serialisations of a processor.
#[derive(Drop)]
pub struct WindowText {
    base: u64,
    /// The bytes now.
    held: Vec<u8>,
    /// The windows of each processor.
    rows: Vec<Windows>,
}

impl Model for WindowText {
    ghost use Rattle.stale_fetch.specs.Windows.{WindowState};

    ghost Value = { WindowState };

    ghost use Rattle.stale_fetch.specs.WindowFields.{windows_of, IsWhole};

    ghost view = { windows_of };

    ghost invariant = { IsWhole };
}

impl WindowText {
    /// A text of these bytes, which begins at the address `base`, for the processors 0 to `cpus - 1`.
    ///
    /// # Errors
    /// Out of memory.
    pub fn new(alloc: Global, base: u64, text: &[u8], cpus: u8) -> Result<WindowText, NoMemory>
        requires some_bytes { 1 ≤ length text.now }
        requires most_bytes { length text.now ≤ 65536 }
        requires ends { base + length text.now < 2 ^ 64 }
        requires some_cpus { 1 ≤ cpus }
        requires most_cpus { cpus ≤ 16 }
        ensures new { IfOk result (λ windows. windows ≡ record { base = base; held = text.now; windows = replicate cpus (replicate (length text.now) None) }) }
        ensures stands { IfOk result (λ windows. IsWindowsOf windows (new_past base text.now cpus)) }
    {
        let held = Vec::from_slice(alloc, text)?;
        let rows = closed_rows(alloc, cpus, text.len())?;
        Ok(WindowText { base, held, rows })
    }

    /// The bytes that it holds now.
    pub fn bytes(&self) -> &[u8]
        ensures { result.now ≡ self.now.held }
    {
        &self.held
    }

    /// What a processor may fetch at an address inside of the text.
    fn choice(&self, cpu: u8, at: u64) -> Choice
        requires known { cpu < length self.now.windows }
        requires inside { Covers (window_shape self.now) at }
        ensures { result ≡ choice_at self.now cpu (at - self.now.base) }
    {
        let place = (at - self.base) as usize;
        let row = &self.rows[usize::from(cpu)];
        row.choice(place, self.held[place])
    }
}

/// Closed windows of as many processors, one for each of as many places.
///
/// # Errors
/// Out of memory.
fn closed_rows(alloc: Global, cpus: u8, size: usize) -> Result<Vec<Windows>, NoMemory>
    ensures { IfOk result (λ rows. rows.items ≡ replicate cpus (replicate size None)) }
{
    let mut rows = Vec::with_capacity(alloc, usize::from(cpus))?;
    for _ in 0..cpus {
        rows.push_reserved(Windows::new(alloc, size)?);
    }
    Ok(rows)
}

/// Whether a write of a byte makes no third value for any processor, at a place where a byte is held.
fn all_take(rows: &[Windows], place: usize, held: u8, byte: u8) -> bool
    requires { All (λ (row : Row). place < length row) rows.now }
    ensures { result ≡ list_all (λ (row : Row). takes (chosen held (window_at row place)) byte) rows.now }
{
    for row in rows {
        if !row.choice(place, held).takes(byte) {
            return false;
        }
    }
    true
}

/// Opens each processor's window at a place for a write of a byte where another was held.
fn widen_all(rows: &mut [Windows], place: usize, held: u8, byte: u8)
    requires { All (λ (row : Row). place < length row) rows.old }
    ensures { rows.new ≡ map (widened_at place held byte) rows.old }
{
    for row in rows {
        row.widen(place, held, byte);
    }
}

impl Held for WindowText {
    ghost use Rattle.stale_fetch.specs.Windows.{window_held};

    ghost held_byte = { window_held };

    fn held(&self, at: u64) -> Option<u8> {
        if at < self.base {
            return None;
        }
        self.held.get((at - self.base) as usize).copied()
    }
}

impl Text for WindowText {
    ghost use Rattle.stale_fetch.specs.Windows.{window_shape, IsWindowsOf, windows_take};
    ghost use Rattle.stale_fetch.specs.WindowLaws.{windows_agree, windows_room};

    ghost shape = { window_shape };

    ghost stands = { IsWindowsOf };

    ghost can_write = { windows_take };

    ghost agrees = { windows_agree };

    ghost room_is = { windows_room };

    fn fits(&self, at: u64, byte: u8) -> bool {
        let place = (at - self.base) as usize;
        all_take(&self.rows, place, self.held[place], byte)
    }

    fn write(&mut self, at: u64, byte: u8) {
        let place = (at - self.base) as usize;
        widen_all(&mut self.rows, place, self.held[place], byte);
        self.held[place] = byte;
    }

    fn serialise(&mut self, cpu: u8) {
        let row = &mut self.rows[usize::from(cpu)];
        row.close();
    }

    fn count(&self, cpu: u8, at: u64) -> u16 {
        self.choice(cpu, at).count()
    }

    fn candidate(&self, cpu: u8, at: u64, n: u16) -> u8 {
        self.choice(cpu, at).value(n)
    }

    fn allows(&self, cpu: u8, at: u64, byte: u8) -> bool {
        self.choice(cpu, at).has(byte)
    }
}
